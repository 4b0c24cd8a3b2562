//! What `--help` of a command says below its options, in lines of at most 100 characters: what its
//! log tells, and what each exit status means.

// Of `migrate`.
pub(crate) const LOG_AND_STATUS: &str =
    r#"The log goes to standard output: a line of JSON for each object, and for each place that isn't
carried. Each line says under "as" what became of it:
  done     carried, from the folder "at" of the source to the folder "to" of ocfl
  present  left alone, since something stands at its place in ocfl already
  skip     not carried, for the cause below
  end      the last line: how many there were of each

The causes of a skip:
  root      pairtree_root itself holds files, or folders whose names are longer than two bytes
  empty     the folder that an identifier leads to is empty
  split     the folder that an identifier leads to holds more than one folder of an object, or files
  past      the folder stands below a name of one byte, where identifiers end
  name      the names of the folders read as no identifier
  utf8      the identifier isn't a text in UTF-8
  other     the object holds a link, or a file of a special kind
  limit     the object is too large or lies too deep
  reserved  the object's place would be the folder extensions

Exit status:
  0  everything was carried
  1  the run ended, but the log has a line of skip (unless --skips-ok is given) or of present
     (unless --present-ok is given), or no object was met of an identifier of --list
  2  the words were refused, and nothing was done
  3  a fault ended the run, and standard error says which"#;

// Of `audit`.
pub(crate) const AUDIT_AND_STATUS: &str =
    r#"What a run makes of each object is held against what stands at its place, path by path and byte by
byte. Give the options that the run had. Nothing is made or changed.
The log goes to standard output: a line of JSON for each object, and for each place that isn't
carried. Each line says under "as" what was found:
  same     exactly the object stands at "to"; its moment, user and message may be any
  alike    with --quick, in the place of same: at "to" stand files of the same names and lengths,
           with an inventory of theirs; no file of an object was read
  absent   nothing stands there
  differs  the first difference is at "path" in it, by "why":
           missing, extra, kind (a file for a folder, or so) or bytes;
           or twin: its folder has other names than its identifier's, which stands too
  skip     not carried, for the cause that migrate gives
  extra    with --extra, an object at "to" of ocfl that isn't in the source
  stray    with --extra, what stands at "to" is no part of ocfl or of an object,
           or is an object whose place is another, or whose identifier can't be read,
           or is a folder that can't be listed whole, for the "reason"
  end      the last line: how many there were of each

Exit status:
  0  all lines are same or alike
  1  the log has other lines (with --skips-ok, other lines beside those of skip),
     or no object was met of an identifier of --list
  2  the words were refused, and nothing was done
  3  a fault ended the audit, and standard error says which"#;

// Of `check`.
pub(crate) const TROUBLES_AND_STATUS: &str =
    r#"Below pairtree_root every folder is listed and every file opened, in one pass that goes on past
what can't be read. Nothing is made or changed.
Standard output gets a line of JSON for each trouble.
Each line says under "as" what is at "path" in the source:
  unreadable  it can't be listed, opened or read, for the "reason"
  missing     a store must have it, and it isn't there
  prefix      pairtree_prefix is no file of a prefix
  doubtful    the prefix holds a character that isn't seen, or a blank at an end
  spelling    its names are others than its identifier's, so that it may be a twin
  deep        it lies more than 600 folders deep, and isn't listed
  long        its path in its object is longer than 4,000 bytes
  many        it is the first file over the 1,000,000 of an object
  large       it has more than 8 TiB (with --read)
  place       its path would be too long in DEST (with --dest)
  desktop     it is one of what desktops leave: .DS_Store, Thumbs.db, desktop.ini, ._*
  width       it stands among folders of one or two bytes, has a longer name, and holds such folders
  root, empty, split, past, name, utf8, reserved, other
              a run doesn't carry it, for the cause that migrate gives
  end         the last line: how much there is of all that was met, and of each kind of line

Exit status:
  0  nothing was told
  1  something was told, and nothing of what has status 3
  2  the words were refused, and nothing was done
  3  what would stop a run was told (unreadable, missing, prefix, place),
     or a fault ended the check, and standard error says which"#;
