//! A set of texts, which lie packed in buckets.
//!
//! A bucket is one list of bytes: its texts one behind another, a NUL before each. The hash of a
//! text says in which bucket it lies (linear hashing: as the set grows, one bucket after another is
//! divided in two, so that a bucket stays short). This equals all texts in one list that is looked
//! through from its start.
ghost use Rattle.std.specs.Prelude.{◌≡◌, ◌<◌, ◌≤◌, ◌++◌, ◌∷◌, [], false, length, map, max, IfOk};
ghost use Rattle.std.specs.Prelude.{List, OnErr, OnOk, ℕ};
ghost use Rattle.std.specs.Borrow.{Bor};
ghost use Rattle.pt_rehearsal.specs.Buckets.{HasNoNul, IsHalved, bucket_of, hash_of, holds};
ghost use Rattle.pt_rehearsal.specs.Buckets.{texts_in};

use pt_tree::MemoryFault;
use std::alloc::Global;

// The byte before each text of a bucket. No text has it.
const NUL: u8 = 0;

// How many bytes of texts a bucket has before there is another, taken over all buckets.
const ROOM: usize = 64;

// From so many buckets on, as many as a hash tells apart, there are no more.
const MOST: usize = 1 << 32;

// A set of texts.
#[derive(Drop)]
pub(crate) struct TextSet {
    alloc: Global,
    buckets: Vec<Vec<u8>>,
    // How many buckets there were when the first of them was divided last.
    base: usize,
    // How many bytes all texts have.
    size: usize,
    ghost based: { 0 < base },
    ghost begun: { base ≤ max 1 (length buckets.items) },
    ghost bounded: { base ≤ 4294967296 },
}

// The texts of a bucket, as they lie when it is divided.
#[derive(Drop)]
struct Halves {
    stays: Vec<u8>,
    goes: Vec<u8>,
}

impl TextSet {
    ghost use Rattle.pt_rehearsal.specs.Texts.{has, size_with, with_text};

    /// No text. It takes no memory.
    pub fn new(alloc: Global) -> TextSet
        ensures { has result ≡ (λ _. false) }
    {
        TextSet {
            alloc,
            buckets: Vec::new(alloc),
            base: 1,
            size: 0,
        }
    }

    /// Whether a text is in it.
    pub fn contains(&self, text: &[u8]) -> bool
        ensures { result ≡ has self.now text.now }
    {
        match self.buckets.get(self.bucket(text)) {
            Some(bucket) => holds(bucket, text),
            None => false,
        }
    }

    /// Adds a text. After `Memory`, where a growth was refused, the set is as before.
    pub fn put(&mut self, text: &[u8]) -> Result<(), MemoryFault>
        requires { HasNoNul text.now }
        ensures ok { OnOk result (has self.new ≡ with_text text.now (has self.old)) }
        ensures err { OnErr result (has self.new ≡ has self.old) }
        ensures size { OnOk result (self.new.size ≡ size_with text.now self.old.size) }
    {
        if self.size / ROOM >= self.buckets.len() {
            self.grow()?;
        }
        self.add(text)
    }

    // The same where there is a bucket.
    fn add(&mut self, text: &[u8]) -> Result<(), MemoryFault>
        requires free { HasNoNul text.now }
        requires some { 0 < length self.old.buckets.items }
        ensures ok { OnOk result (has self.new ≡ with_text text.now (has self.old)) }
        ensures err { OnErr result (has self.new ≡ has self.old) }
        ensures size { OnOk result (self.new.size ≡ size_with text.now self.old.size) }
    {
        let bucket = self.bucket(text);
        append(&mut self.buckets[bucket], text)?;
        self.size = self.size.saturating_add(text.len());
        Ok(())
    }

    // The bucket in which a text lies, or would lie.
    fn bucket(&self, text: &[u8]) -> usize
        ensures { result ≡ bucket_of self.now.base (length self.now.buckets.items)
            (hash_of text.now) }
    {
        let place = hash(text) % (2 * self.base);
        if place < self.buckets.len() {
            place
        } else {
            place.saturating_sub(self.base)
        }
    }

    // Makes one bucket more, unless there are as many as there can be. After `Memory` the set is as
    // before.
    fn grow(&mut self) -> Result<(), MemoryFault>
        ensures same { has self.new ≡ has self.old }
        ensures some { OnOk result (0 < length self.new.buckets.items) }
        ensures size { self.new.size ≡ self.old.size }
    {
        let count = self.buckets.len();
        if count == 0 {
            self.buckets.push(Vec::new(self.alloc))?;
            return Ok(());
        }
        if count >= MOST {
            return Ok(());
        }
        if count == 2 * self.base {
            self.base = count;
        }
        self.divide()
    }

    // Divides the next bucket: those of its texts that lie further on go to a new one.
    fn divide(&mut self) -> Result<(), MemoryFault>
        requires { 0 < length self.old.buckets.items }
        ensures same { has self.new ≡ has self.old }
        ensures some { 0 < length self.new.buckets.items }
        ensures size { self.new.size ≡ self.old.size }
    {
        let count = self.buckets.len();
        let next = count - self.base;
        let Halves { stays, goes } = halve(self.alloc, &self.buckets[next], self.base, count)?;
        self.buckets.push(goes)?;
        self.buckets[next] = stays;
        Ok(())
    }
}

// The hash of a text: the lower half of that by FNV-1a. The last three bytes hardly reach the least
// bits of the upper half, so that by it directories that differ in their last tuple alone would lie
// in few buckets.
fn hash(text: &[u8]) -> usize
    ensures { result ≡ hash_of text.now }
{
    let mut hash = 0xcbf2_9ce4_8422_2325u64;
    for byte in text {
        hash = (hash ^ u64::from(*byte)).wrapping_mul(0x100_0000_01b3);
    }
    (hash % (1 << 32)) as usize
}

// Whether a bucket has a text.
fn holds(bucket: &[u8], text: &[u8]) -> bool
    ensures { result ≡ holds text.now bucket.now }
{
    bucket
        .split(|byte| *byte == NUL)
        .skip(1)
        .any(|held| held == text)
}

// Adds a text to a bucket, and asks for no more room than it takes. After `Memory` the bucket is as
// before.
fn append(bucket: &mut Vec<u8>, text: &[u8]) -> Result<(), MemoryFault>
    requires { HasNoNul text.now }
    ensures ok { OnOk result (texts_in bucket.new.items
        ≡ texts_in bucket.old.items ++ text.now ∷ []) }
    ensures err { OnErr result (bucket.new.items ≡ bucket.old.items) }
{
    let end = bucket.len();
    bucket.reserve_exact(text.len().saturating_add(1))?;
    bucket.push(NUL)?;
    match bucket.extend_from_slice(text) {
        Ok(()) => Ok(()),
        Err(error) => {
            bucket.truncate(end);
            Err(error.into())
        }
    }
}

// The texts of a bucket. Room for them is asked for once: `collect` goes on where the room that it
// asks for ahead is refused.
fn texts_of(alloc: Global, bucket: &[u8]) -> Result<Vec<&[u8]>, MemoryFault>
    ensures { IfOk result (λ texts. map (λ (t : Bor (List ℕ)). t.now) texts.items
        ≡ texts_in bucket.now) }
{
    let count = bucket.iter().filter(|byte| **byte == NUL).count();
    let mut texts = Vec::with_capacity(alloc, count)?;
    texts.extend(bucket.split(|byte| *byte == NUL).skip(1))?;
    Ok(texts)
}

// Divides the texts of a bucket: those stay whose place isn't that of the new bucket.
fn halve(alloc: Global, bucket: &[u8], base: usize, count: usize) -> Result<Halves, MemoryFault>
    requires based { 0 < base }
    requires bounded { base ≤ 4294967296 }
    ensures { IfOk result (λ halves. IsHalved base count (texts_in bucket.now)
        (texts_in halves.stays.items) (texts_in halves.goes.items)) }
{
    let texts = texts_of(alloc, bucket)?;
    let mut halves = Halves {
        stays: Vec::new(alloc),
        goes: Vec::new(alloc),
    };
    for text in &texts {
        if hash(text) % (2 * base) == count {
            append(&mut halves.goes, text)?;
        } else {
            append(&mut halves.stays, text)?;
        }
    }
    Ok(halves)
}
