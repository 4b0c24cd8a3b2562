//! Reading and writing the files of a folder by whole blocks.
ghost use Rattle.std.specs.Prelude.{◌≡◌, [], IfOk, IfErr, OnOk, OnErr, length, take};
ghost use Rattle.pt_folder.specs.Bytes.{Fills, TakesBlock};
ghost use Rattle.pt_folder.specs.Runs.{FailsToRead, FailsToWrite, ReadsBlock, WritesAll, on_pairs};

use crate::system::{Input, System};
use pt_tree::{BLOCK, Block};
use std::io;

/// What is read into before it is known how much that is.
pub type ReadBuffer = [u8; BLOCK];

/// The block becomes the next bytes of a file: as many as it holds, unless the file ends first. A
/// short read isn't taken for the end. On an error the block is empty.
///
/// A full block is read into as it is; for any other the bytes are read into `room`, and so many as
/// there are copied: no room of a block is filled for it to be read into.
pub fn read_block<F: Input>(
    file: &mut F,
    block: &mut Block,
    room: &mut ReadBuffer,
) -> io::Result<()>
    ensures block { OnOk result (TakesBlock (F.left file.old) (F.left file.new) block.new.items) }
    ensures same { F.bytes file.new ≡ F.bytes file.old }
    ensures empty { OnErr result (block.new.items ≡ []) }
    ensures reads { OnOk result (ReadsBlock F.reads 8192 file.old block.new.items file.new) }
    ensures error { IfErr result (λ e. FailsToRead F.reads 8192 file.old e file.new) }
{
    if block.is_full() {
        return read_over(file, block);
    }
    block.clear();
    let count = fill(file, room)?;
    block.try_extend_from_slice(&room[..count]).unwrap();
    Ok(())
}

// The same of a full block.
fn read_over<F: Input>(file: &mut F, block: &mut Block) -> io::Result<()>
    requires { length block.old.items ≡ 8192 }
    ensures block { OnOk result (TakesBlock (F.left file.old) (F.left file.new) block.new.items) }
    ensures same { F.bytes file.new ≡ F.bytes file.old }
    ensures empty { OnErr result (block.new.items ≡ []) }
    ensures reads { OnOk result (ReadsBlock F.reads 8192 file.old block.new.items file.new) }
    ensures error { IfErr result (λ e. FailsToRead F.reads 8192 file.old e file.new) }
{
    match fill(file, block.as_mut_slice()) {
        Ok(count) => {
            block.truncate(count);
            Ok(())
        }
        Err(error) => {
            block.truncate(0);
            Err(error)
        }
    }
}

// Reads until the buffer is full or a read gives nothing, and says how many bytes were read.
fn fill<F: Input>(file: &mut F, buffer: &mut [u8]) -> io::Result<usize>
    ensures same { F.bytes file.new ≡ F.bytes file.old }
    ensures bytes { IfOk result
        (λ count. Fills (F.left file.old) (F.left file.new) count buffer.new) }
    ensures reads { IfOk result (λ count.
        ReadsBlock F.reads (length buffer.old) file.old (take count buffer.new) file.new) }
    ensures error { IfErr result
        (λ e. FailsToRead F.reads (length buffer.old) file.old e file.new) }
{
    let mut done = 0;
    while done < buffer.len() {
        let count = file.read_piece(&mut buffer[done..])?;
        if count == 0 {
            break;
        }
        done += count;
    }
    Ok(done)
}

/// Writes all the bytes. An error, or zero for a piece that isn't empty, ends it; nothing is tried
/// again.
pub fn write_pieces<S: System>(system: &mut S, file: &mut S::File, bytes: &[u8]) -> io::Result<()>
    ensures writes { OnOk result (WritesAll (on_pairs S.writes) bytes.now
        (system.old, file.old) (system.new, file.new)) }
    ensures error { IfErr result (λ e. FailsToWrite (on_pairs S.writes) bytes.now
        (system.old, file.old) e (system.new, file.new)) }
{
    let mut done = 0;
    while done < bytes.len() {
        match system.write_piece(file, &bytes[done..]) {
            Ok(0) => return Err(io::Error::from(io::ErrorKind::WriteZero)),
            Ok(taken) => done += taken,
            Err(error) => return Err(error),
        }
    }
    Ok(())
}
