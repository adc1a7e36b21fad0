ghost use Rattle.std.specs.Prelude.{◌≡◌, ◌<◌, ◌≤◌, All, IfOk, OnOk, length, map};
ghost use Rattle.std.specs.Simd.Lanes.{mask_l};
ghost use Rattle.and_or_tables.specs.Ground.{ground_table, known};
ghost use Rattle.and_or_tables.specs.Shape.{IsTable, PhrasesBelow};

use crate::ground::{GroundRow, GroundTable};
use crate::masks::{MaskTable, with_lowest};
use crate::truths::Truths;
use rsml_syntax::NoMemory;
use std::alloc::Global;
use std::marker::Model;

/// A ground table that is asked as masks. Contracts see it as the table that it was built of.
#[derive(Debug)]
pub struct FastTable {
    phrases: Vec<u32>,
    masks: MaskTable,
}

impl Drop for FastTable {
    fn drop(self) {
        let Self {
            phrases: _,
            masks: _,
        } = self;
    }
}

impl Model for FastTable {
    ghost use Rattle.and_or_tables.specs.declared.ground.GroundTable.{GroundTable};

    ghost Value = { GroundTable };

    ghost use Rattle.and_or_tables.specs.Fast.{IsPaired, table_of};

    ghost view = { table_of };

    ghost invariant = { IsPaired };
}

impl FastTable {
    /// The fast form of a table.
    pub fn new(alloc: Global, table: &GroundTable) -> Result<FastTable, NoMemory>
        requires { IsTable table.now }
        ensures { IfOk result (λ fast. fast ≡ table.now) }
    {
        let phrases = phrases_of(alloc, table.rows.as_slice())?;
        let masks = MaskTable::build(alloc, table)?;
        Ok(FastTable { phrases, masks })
    }

    /// The numbers of the phrases of the rows, in order.
    #[tactic(auto, using(crate::proofs::FastLemmas::phrases_of_rows))]
    pub fn phrases(&self) -> &[u32]
        ensures { result.now ≡ map (λ row. row.phrase) self.now.rows }
    {
        // To look at a field makes the invariant of the table known to the proof.
        let _ = &self.masks;
        self.phrases.as_slice()
    }

    /// Whether some column is true: what `GroundTable::truth` answers of the table. It takes no
    /// memory.
    pub fn truth(&self, truths: &Truths) -> bool
        requires { PhrasesBelow (length truths.now) self.now }
        ensures { result ≡ ground_table truths.now self.now }
    {
        let bits = gathered(self.phrases.as_slice(), truths);
        self.masks.any_column(bits)
    }
}

fn phrases_of(alloc: Global, rows: &[GroundRow]) -> Result<Vec<u32>, NoMemory>
    ensures { IfOk result (λ phrases. phrases.items ≡ map (λ row. row.phrase) rows.now) }
{
    let mut phrases = Vec::with_capacity(alloc, rows.len())?;
    for row in rows {
        phrases.push(row.phrase)?;
    }
    Ok(phrases)
}

/// The truths of the phrases as bits: bit k, from 0, is that of phrase k + 1.
fn gathered(phrases: &[u32], truths: &Truths) -> u64
    requires few { length phrases.now ≤ 64 }
    requires phrases { All (λ phrase. phrase < length truths.now) phrases.now }
    ensures { result ≡ mask_l (map (known truths.now) phrases.now) }
{
    let mut bits = 0;
    let mut k = phrases.len();
    while k > 0 {
        k -= 1;
        bits = with_lowest(bits, truths.get(phrases[k]));
    }
    bits
}
