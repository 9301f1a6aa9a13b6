//! Builds tables slot by slot and writes them in the canonical layout.

ghost use Rattle.std.specs.Prelude.{◌≡◌, length, IfOk, OnOk, OnErr};
ghost use Rattle.flatbuf.specs.Tree.{absent, number, text, structs, table, references, no_nodes};
ghost use Rattle.flatbuf.specs.Written.{up, object_end, whole, IsWritable};
ghost use Rattle.flatbuf.specs.Slots.{view};
ghost use Rattle.flatbuf.specs.Built.{add, slots, listed};

use crate::bytes;
use crate::slot::Slot;
use std::alloc::{AllocError, Global};

/// A table that is built slot by slot, in slot order, with all that it refers to.
///
/// A signed number is given as two's complement. Where memory is refused the builder is as it was, and the same call
/// may be made again.
#[derive(Drop)]
pub struct Builder {
    slots: Vec<Slot>,
}

/// The tables of a vector, in order.
#[derive(Drop)]
pub struct Tables {
    tables: Vec<Slot>,
}

impl Builder {
    /// A table without slots. It takes no memory.
    pub fn new(alloc: Global) -> Self
        ensures { slots result ≡ no_nodes }
    {
        Builder {
            slots: Vec::new(alloc),
        }
    }

    #[tactic(auto, using(crate::proofs::Views::pushed))]
    fn push(&mut self, slot: Slot) -> Result<(), AllocError>
        ensures ok { OnOk result (slots self.new ≡ add (slots self.old) (view slot)) }
        ensures err { OnErr result (slots self.new ≡ slots self.old) }
    {
        self.slots.push(slot)?;
        Ok(())
    }

    /// Leaves the next slot absent.
    pub fn absent(&mut self) -> Result<(), AllocError>
        ensures ok { OnOk result (slots self.new ≡ add (slots self.old) absent) }
        ensures err { OnErr result (slots self.new ≡ slots self.old) }
    {
        self.push(Slot::Absent)
    }

    /// A number of one byte, also a bool as 0 or 1.
    pub fn u8(&mut self, value: u8) -> Result<(), AllocError>
        ensures ok { OnOk result (slots self.new ≡ add (slots self.old) (number 1 value)) }
        ensures err { OnErr result (slots self.new ≡ slots self.old) }
    {
        self.push(Slot::Number(1, value as u64))
    }

    /// A number of two bytes.
    pub fn u16(&mut self, value: u16) -> Result<(), AllocError>
        ensures ok { OnOk result (slots self.new ≡ add (slots self.old) (number 2 value)) }
        ensures err { OnErr result (slots self.new ≡ slots self.old) }
    {
        self.push(Slot::Number(2, value as u64))
    }

    /// A number of four bytes.
    pub fn u32(&mut self, value: u32) -> Result<(), AllocError>
        ensures ok { OnOk result (slots self.new ≡ add (slots self.old) (number 4 value)) }
        ensures err { OnErr result (slots self.new ≡ slots self.old) }
    {
        self.push(Slot::Number(4, value as u64))
    }

    /// A number of eight bytes.
    pub fn u64(&mut self, value: u64) -> Result<(), AllocError>
        ensures ok { OnOk result (slots self.new ≡ add (slots self.old) (number 8 value)) }
        ensures err { OnErr result (slots self.new ≡ slots self.old) }
    {
        self.push(Slot::Number(8, value))
    }

    /// A string, by its bytes, which need not be UTF-8.
    pub fn text(&mut self, bytes: &[u8]) -> Result<(), AllocError>
        ensures ok { OnOk result (slots self.new ≡ add (slots self.old) (text bytes.now)) }
        ensures err { OnErr result (slots self.new ≡ slots self.old) }
    {
        let owned = Vec::from_slice(*self.slots.allocator(), bytes)?;
        self.push(Slot::Text(owned))
    }

    /// A vector of structs of this width, by the bytes of all. A table is finished only with whole structs.
    pub fn structs(&mut self, width: usize, bytes: Vec<u8>) -> Result<(), AllocError>
        ensures ok { OnOk result (slots self.new ≡ add (slots self.old) (structs width bytes.items)) }
        ensures err { OnErr result (slots self.new ≡ slots self.old) }
    {
        self.push(Slot::Structs(width, bytes))
    }

    /// A table below this one, or the table of a union.
    pub fn table(&mut self, fields: Builder) -> Result<(), AllocError>
        ensures ok { OnOk result (slots self.new ≡ add (slots self.old) (table (slots fields))) }
        ensures err { OnErr result (slots self.new ≡ slots self.old) }
    {
        self.push(Slot::Table(fields.slots))
    }

    /// A vector of tables.
    pub fn tables(&mut self, tables: Tables) -> Result<(), AllocError>
        ensures ok { OnOk result (slots self.new ≡ add (slots self.old) (references (listed tables))) }
        ensures err { OnErr result (slots self.new ≡ slots self.old) }
    {
        self.push(Slot::References(tables.tables))
    }

    /// The bytes of this table, as a message's whole metadata.
    #[tactic(auto, using(crate::proofs::Lengths::lengths))]
    pub fn finish(&self, alloc: Global) -> Result<Vec<u8>, AllocError>
        requires { IsWritable (slots self.now) }
        ensures bytes { IfOk result (λ bytes. bytes.items ≡ whole (slots self.now)) }
        ensures size { IfOk result (λ bytes. length bytes.items ≡ up 8 (object_end 4 (table (slots self.now)))) }
    {
        bytes::write(alloc, &self.slots)
    }
}

impl Tables {
    /// A vector without tables. It takes no memory.
    pub fn new(alloc: Global) -> Self
        ensures { listed result ≡ no_nodes }
    {
        Tables {
            tables: Vec::new(alloc),
        }
    }

    /// Adds a table at the end.
    #[tactic(auto, using(crate::proofs::Views::pushed))]
    pub fn push(&mut self, fields: Builder) -> Result<(), AllocError>
        ensures ok { OnOk result (listed self.new ≡ add (listed self.old) (table (slots fields))) }
        ensures err { OnErr result (listed self.new ≡ listed self.old) }
    {
        self.tables.push(Slot::Table(fields.slots))?;
        Ok(())
    }
}
