ghost use Rattle.std.specs.Prelude.{◌≡◌, ◌<◌, ◌≤◌, [], length, OnOk, OnErr, None, vec_capacity};
ghost use Rattle.farm_model.specs.Chain.{chain_digests, chain_head, audit_text};
ghost use Rattle.audit_log.specs.Entries.{texts_of, kept_digests, first_broken};
ghost use Rattle.audit_log.specs.Log.{empty_log, with_text};

use crate::chain::{digest_after, first_digest};
use farm_kinds::{Name, NoMemory, Text};
use std::alloc::Global;
use std::marker::Model;
use std::mem;

/// An entry of an audit log.
#[derive(Debug, Drop)]
pub struct Entry {
    /// Who acted, a space, and the words.
    pub text: Text,
    /// The SHA-256 of the digest before it, followed by the text.
    pub digest: [u8; 32],
}

/// The audit log, which only grows. Contracts see its texts, whose digests are those of the chain, and how
/// long a text may be whose entry takes no memory.
#[derive(Drop)]
pub struct Audit {
    alloc: Global,
    entries: Vec<Entry>,
    /// The last digest.
    head: [u8; 32],
    /// The room for the text of the next entry.
    ready: Vec<u8>,
}

impl Model for Audit {
    ghost use Rattle.audit_log.specs.Log.{Log};

    ghost Value = { Log };

    ghost use Rattle.audit_log.specs.LogLayout.{log_value, IsLogLayout};

    ghost view = { log_value };

    ghost invariant = { IsLogLayout };
}

impl Audit {
    /// A log of no entries. It takes memory when `reserve` or `add` is called.
    pub fn new(alloc: Global) -> Audit
        ensures { result ≡ empty_log }
    {
        Audit {
            alloc,
            entries: Vec::new(alloc),
            head: first_digest(),
            ready: Vec::new(alloc),
        }
    }

    /// The number of bytes of its text up to which the next entry takes no memory.
    pub fn reserved(&self) -> usize
        ensures { result ≡ self.now.reserved }
    {
        if self.entries.len() < self.entries.capacity() {
            self.ready.capacity()
        } else {
            0
        }
    }

    /// Makes room for the next entry, where its text has at most `len` bytes. Room is never given back. At
    /// `NoMemory` nothing changes.
    pub fn reserve(&mut self, len: u32) -> Result<(), NoMemory>
        ensures enough { OnOk result (len ≤ self.new.reserved) }
        ensures texts { self.new.texts ≡ self.old.texts }
        ensures grows { self.old.reserved ≤ self.new.reserved }
        ensures unchanged { OnErr result (self.new ≡ self.old) }
        ensures needed { OnErr result (self.old.reserved < len) }
    {
        self.make_room(len as usize)
    }

    /// Adds the entry of what someone did, given as words with single spaces. At `NoMemory` nothing
    /// changes.
    pub fn add(&mut self, who: &Name, what: &[u8]) -> Result<(), NoMemory>
        ensures added { OnOk result (self.new ≡ with_text self.old (audit_text who.now what.now)) }
        ensures unchanged { OnErr result (self.new ≡ self.old) }
        ensures needed { OnErr result (self.old.reserved < length (audit_text who.now what.now)) }
    {
        self.make_room(who.as_bytes().len() + 1 + what.len())?;
        self.add_reserved(who, what);
        Ok(())
    }

    /// Adds an entry, as `add` does, for which there is room.
    pub fn add_reserved(&mut self, who: &Name, what: &[u8])
        requires { length (audit_text who.now what.now) ≤ self.old.reserved }
        ensures { self.new ≡ with_text self.old (audit_text who.now what.now) }
    {
        let mut text = mem::replace(&mut self.ready, Vec::new(self.alloc));
        write_text(&mut text, who.as_bytes(), what);
        self.head = digest_after(&self.head, text.as_slice());
        self.entries.push_reserved(Entry {
            text: Text::from_vec(text),
            digest: self.head,
        });
    }

    /// How many entries there are.
    pub fn len(&self) -> usize
        ensures { result ≡ length self.now.texts }
    {
        self.entries.len()
    }

    /// The last digest, or where there is no entry the SHA-256 of the empty text.
    pub fn head(&self) -> [u8; 32]
        ensures { result ≡ chain_head self.now.texts }
    {
        self.head
    }

    /// The entries, in the order in which they were added.
    pub fn entries(&self) -> &[Entry]
        ensures texts { texts_of result.now ≡ self.now.texts }
        ensures digests { kept_digests result.now ≡ chain_digests self.now.texts }
        ensures whole { first_broken result.now ≡ None }
    {
        self.entries.as_slice()
    }

    /// Makes room for the next entry, as `reserve` does.
    fn make_room(&mut self, len: usize) -> Result<(), NoMemory>
        ensures enough { OnOk result (len ≤ self.new.reserved) }
        ensures texts { self.new.texts ≡ self.old.texts }
        ensures grows { self.old.reserved ≤ self.new.reserved }
        ensures unchanged { OnErr result (self.new ≡ self.old) }
        ensures needed { OnErr result (self.old.reserved < len) }
    {
        if len <= self.reserved() {
            return Ok(());
        }
        // The room for the text comes first: it does not count before there is a place for the entry.
        self.ready.reserve(len)?;
        self.entries.reserve(1)?;
        Ok(())
    }
}

/// Writes the text of an entry into the room that was made for it.
fn write_text(room: &mut Vec<u8>, who: &[u8], what: &[u8])
    requires blank { room.old.items ≡ [] }
    requires enough { length (audit_text who.now what.now) ≤ vec_capacity room.old }
    ensures { room.new.items ≡ audit_text who.now what.now }
{
    let _who = room.extend_from_slice(who);
    room.push_reserved(b' ');
    let _what = room.extend_from_slice(what);
}
