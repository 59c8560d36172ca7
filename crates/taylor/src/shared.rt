//! A table of binomial numbers that threads share.
ghost use Rattle.std.specs.Prelude.{◌≡◌, ◌≤◌, IfOk};
ghost use Rattle.residue.specs.Residues.{number_of};
ghost use Rattle.taylor.specs.SharedTables.{table_of, IsTableFor};

use crate::binomials::Binomials;
use once_cell::race::OnceBox;
use ps_model::OutOfMemory;
use residue::Modulus;
use std::alloc::Global;

/// A table of binomial numbers that is made once. Whoever comes first makes it.
#[derive(Drop)]
pub struct SharedBinomials {
    alloc: Global,
    cell: OnceBox<Binomials>,
}

/// A table with the numbers that were asked for.
#[derive(Drop)]
pub enum Table<'a> {
    /// The shared table has them.
    Shared(&'a Binomials),
    /// The shared table has another modulus or a smaller size.
    Own {
        /// A table of its own, which has them.
        own: Binomials,
        /// The shared table.
        found: &'a Binomials,
    },
}

impl SharedBinomials {
    /// No table yet. It takes memory at the first call of `table`.
    pub fn new(alloc: Global) -> SharedBinomials {
        SharedBinomials {
            alloc,
            cell: OnceBox::new(alloc),
        }
    }

    /// A table modulo `modulus` that reaches to `size` at least.
    pub fn table(&self, modulus: Modulus, size: u32) -> Result<Table<'_>, OutOfMemory>
        requires { size ≤ 32 }
        ensures { IfOk result (IsTableFor (number_of modulus) size) }
    {
        let alloc = self.alloc;
        let found = self.cell.get_or_try_init(move || -> Result<Box<Binomials>, OutOfMemory> {
            Ok(Box::new(alloc, Binomials::new(alloc, modulus, size)?)?)
        })?;
        if found.modulus().value() == modulus.value() && size <= found.size() {
            return Ok(Table::Shared(found));
        }
        let own = Binomials::new(alloc, modulus, size)?;
        Ok(Table::Own { own, found })
    }
}

impl<'a> Table<'a> {
    /// The table itself.
    pub fn binomials(&self) -> &Binomials
        ensures { result.now ≡ table_of self.now }
    {
        match self {
            Table::Shared(table) => table,
            Table::Own { own, .. } => own,
        }
    }
}
