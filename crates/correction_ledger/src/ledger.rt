//! The ledger.
ghost use Rattle.std.specs.Prelude.{◌≡◌, [], None, IfOk, IfErr, OnErr, OnOk};
ghost use Rattle.recalc_engine.specs.MonthRows.{month_rows};
ghost use Rattle.correction_ledger.specs.private.Admission.{IsAdmitRefused};
ghost use Rattle.correction_ledger.specs.Filings.{IsClosed, IsFiling, IsFileRefused};
ghost use Rattle.correction_ledger.specs.Filings.{IsOwedNow, IsOwedRefused};
ghost use Rattle.correction_ledger.specs.OwedLaws.{FilingSettles, OwedIsOne, OwedSettles};
ghost use Rattle.correction_ledger.specs.OwedLaws.{FilingsHaveOneAnswer, OwedHasOneAnswer};
ghost use Rattle.correction_ledger.specs.OwedLaws.{DuesAreJoined, FilingsAreJoined};

use crate::balances::Balances;
use crate::due::{Due, Entry};
use crate::filings::{entries_of, owed, settled};
use crate::rows::{first_open, reported};
use payroll_records::{Key, Month};
use recalc_engine::Book;
use std::alloc::{AllocError, Global};
use std::marker::Model;
use thiserror::Error;

/// The most entries of a ledger.
const MOST_ENTRIES: usize = 2_000_000;

/// What was filed, month by month. Nothing filed is ever changed: what changes in the book afterwards is filed with a later
/// month. Contracts see a ledger as its entries and the last filed month.
#[derive(Drop)]
pub struct Ledger {
    entries: Vec<Entry>,
    /// The sum of the entries of each output, in order of key and name.
    sums: Vec<Due>,
    last: Option<Month>,
}

impl Model for Ledger {
    ghost use Rattle.correction_ledger.specs.Filings.{Filings};
    ghost use Rattle.correction_ledger.specs.FilingSums.{AreSumsOf};

    ghost Value = { Filings };

    ghost view = { λ l. record { entries = l.entries.items; last = l.last } };

    ghost invariant = { λ l. AreSumsOf l.entries.items l.sums.items l.last };
}

/// Why a month isn't filed.
#[derive(Debug, Drop, Error)]
pub enum FileRefusal {
    #[error("the month is not after {last}, the last filed one")]
    Early { last: Month },
    #[error("the run of {} on {} is not ok; `report` says why", key.employee, key.day)]
    Open { key: Key },
    #[error("there would be more than 2000000 entries")]
    Entries,
    #[error("out of memory")]
    Memory(AllocError),
}

impl From<AllocError> for FileRefusal {
    ghost use Rattle.std.specs.Prelude.{◌≡◌};
    ghost use Rattle.correction_ledger.specs.declared.ledger.FileRefusal.TheVariants.{Memory};

    ghost from_gives = { λ error refusal. refusal ≡ Memory error };

    fn from(error: AllocError) -> FileRefusal {
        FileRefusal::Memory(error)
    }
}

/// Why it isn't known what is owed.
#[derive(Debug, Drop, Error)]
pub enum OwedRefusal {
    #[error("no month was filed")]
    NothingFiled,
    #[error("the run of {} on {} is not ok; `report` says why", key.employee, key.day)]
    Open { key: Key },
    #[error("out of memory")]
    Memory(AllocError),
}

impl From<AllocError> for OwedRefusal {
    ghost use Rattle.std.specs.Prelude.{◌≡◌};
    ghost use Rattle.correction_ledger.specs.declared.ledger.OwedRefusal.TheVariants.{Memory};

    ghost from_gives = { λ error refusal. refusal ≡ Memory error };

    fn from(error: AllocError) -> OwedRefusal {
        OwedRefusal::Memory(error)
    }
}

impl Ledger {
    /// A ledger in which nothing was filed.
    pub fn new(alloc: Global) -> Ledger
        ensures { result ≡ record { entries = []; last = None } }
    {
        Ledger {
            entries: Vec::new(alloc),
            sums: Vec::new(alloc),
            last: None,
        }
    }

    /// All that was filed, in the order in which it was filed.
    pub fn entries(&self) -> &[Entry]
        ensures { result.now ≡ self.now.entries }
    {
        self.entries.as_slice()
    }

    /// The last filed month.
    pub fn last(&self) -> Option<Month>
        ensures { result ≡ self.now.last }
    {
        self.last
    }

    /// Files a month: appends what is owed up to it, and answers how many entries that were. After a refusal the ledger is as
    /// before.
    pub fn file(&mut self, book: &Book, month: Month) -> Result<u64, FileRefusal>
        ensures ok { IfOk result (IsFiling (month_rows book.now) month self.old self.new) }
        ensures err { OnErr result (self.new ≡ self.old) }
        ensures refused { IfErr result (IsFileRefused (month_rows book.now) month self.old) }
    {
        admit(book, month, self.last)?;
        let alloc = *self.entries.allocator();
        let reported = reported(alloc, book, month)?;
        let dues = owed(
            alloc,
            Balances::of(reported.as_slice(), self.sums.as_slice()),
        )?;
        if self.entries.len() + dues.len() > MOST_ENTRIES {
            return Err(FileRefusal::Entries);
        }
        let sums = settled(
            alloc,
            Balances::of(reported.as_slice(), self.sums.as_slice()),
        )?;
        let mut entries = entries_of(alloc, month, dues.as_slice())?;
        self.entries.append(&mut entries)?;
        self.sums = sums;
        self.last = Some(month);
        Ok(dues.len() as u64)
    }

    /// What is owed up to the last filed month, in order of key and name.
    pub fn owed(&self, alloc: Global, book: &Book) -> Result<Vec<Due>, OwedRefusal>
        ensures ok { IfOk result (λ dues. IsOwedNow (month_rows book.now) self.now dues.items) }
        ensures refused { IfErr result (IsOwedRefused (month_rows book.now) self.now) }
    {
        let Some(last) = self.last else {
            return Err(OwedRefusal::NothingFiled);
        };
        if let Some(key) = first_open(book, last) {
            return Err(OwedRefusal::Open { key });
        }
        let reported = reported(alloc, book, last)?;
        let dues = owed(
            alloc,
            Balances::of(reported.as_slice(), self.sums.as_slice()),
        )?;
        Ok(dues)
    }
}

/// Nothing but the number of entries stands against filing a month, or why it isn't filed.
fn admit(book: &Book, month: Month, last: Option<Month>) -> Result<(), FileRefusal>
    ensures ok { OnOk result (IsClosed (month_rows book.now) month last) }
    ensures refused { IfErr result (IsAdmitRefused (month_rows book.now) month last) }
{
    if let Some(last) = last {
        if month <= last {
            return Err(FileRefusal::Early { last });
        }
    }
    match first_open(book, month) {
        Some(key) => Err(FileRefusal::Open { key }),
        None => Ok(()),
    }
}

/// The laws of what is owed: it is one list; with it filed, what was filed is what the book reports; so right after a
/// filing nothing is owed. Filing a month has one answer, and so has the question what is owed. Where a payroll is split by
/// employee, what is owed is what is owed in its parts, one after the other, and so is what is filed.
pub fn owed_laws()
    ensures one { OwedIsOne }
    ensures settles { OwedSettles }
    ensures nothing { FilingSettles }
    ensures filing { FilingsHaveOneAnswer }
    ensures owed { OwedHasOneAnswer }
    ensures joined { DuesAreJoined }
    ensures filings_joined { FilingsAreJoined }
{}
