//! What the book reports beside what was filed, output by output.
ghost use Rattle.std.specs.Prelude.{◌≡◌};
ghost use Rattle.std.specs.Iterator.{YieldsFirst, item_count};
ghost use Rattle.correction_ledger.specs.Accounts.{account_cmp, account_of};
ghost use Rattle.correction_ledger.specs.private.BalanceViews.{AreBothBounded, balances_of, owed_of};
ghost use Rattle.correction_ledger.specs.private.BalanceViews.{both_sides, filed_only, reported_only, settled_of};

use crate::due::Due;
use pap_tree::Name;
use payroll_records::Key;
use scaled_decimal::Dec;
use std::cmp::Ordering;
use std::marker::Model;

/// What the book reports of an output, and what was filed of it. Each is 0 where there is none.
#[derive(Clone, Copy)]
pub(crate) struct Balance {
    pub(crate) key: Key,
    pub(crate) name: Name,
    pub(crate) reported: Dec,
    pub(crate) filed: Dec,
}

impl Balance {
    /// The balance of an output of which nothing was filed.
    fn reported(due: &Due) -> Balance
        ensures { result ≡ reported_only due.now }
    {
        Balance {
            key: due.key,
            name: due.name,
            reported: due.amount,
            filed: Dec::new(0, 0),
        }
    }

    /// The balance of an output that the book doesn't report.
    fn filed(due: &Due) -> Balance
        ensures { result ≡ filed_only due.now }
    {
        Balance {
            key: due.key,
            name: due.name,
            reported: Dec::new(0, 0),
            filed: due.amount,
        }
    }

    /// The balance of an output that the book reports and of which something was filed.
    fn both(reported: &Due, filed: &Due) -> Balance
        ensures { result ≡ both_sides reported.now filed.now }
    {
        Balance {
            key: reported.key,
            name: reported.name,
            reported: reported.amount,
            filed: filed.amount,
        }
    }

    /// What is owed, where the values differ.
    pub(crate) fn due(&self) -> Option<Due>
        requires { AreBothBounded self.now }
        ensures { result ≡ owed_of self.now }
    {
        if self.reported.compare(self.filed) == Ordering::Equal {
            return None;
        }
        Some(Due {
            key: self.key,
            name: self.name,
            amount: self.reported.sub(self.filed),
        })
    }

    /// What is filed once that is filed too.
    pub(crate) fn settled(&self) -> Due
        requires { AreBothBounded self.now }
        ensures { result ≡ settled_of self.now }
    {
        let amount = match self.due() {
            Some(due) => self.filed.add(due.amount),
            None => self.filed,
        };
        Due {
            key: self.key,
            name: self.name,
            amount,
        }
    }
}

/// The balances of two lists in order of key and name. Contracts see an iterator as the list of the balances that are left.
#[derive(Drop)]
pub(crate) struct Balances<'a> {
    reported: &'a [Due],
    filed: &'a [Due],
}

impl<'a> Model for Balances<'a> {
    ghost use Rattle.std.specs.Prelude.{List};
    ghost use Rattle.correction_ledger.specs.declared.balances.Balance.{Balance};
    ghost use Rattle.correction_ledger.specs.private.BalanceViews.{balances_of};

    ghost Value = { List Balance };

    ghost view = { λ b. balances_of b.reported.now b.filed.now };
}

impl<'a> Balances<'a> {
    /// The balances of what is reported and what was filed.
    pub(crate) fn of(reported: &'a [Due], filed: &'a [Due]) -> Balances<'a>
        ensures { result ≡ balances_of reported.now filed.now }
    {
        Balances { reported, filed }
    }
}

impl<'a> Iterator for Balances<'a> {
    type Item = Balance;

    ghost next_gives = { YieldsFirst (λ rest. rest) };

    ghost remaining = { item_count (λ rest. rest) };

    fn next(&mut self) -> Option<Balance> {
        let Some((reported, more_reported)) = self.reported.split_first() else {
            let (filed, more_filed) = self.filed.split_first()?;
            self.filed = more_filed;
            return Some(Balance::filed(filed));
        };
        let Some((filed, more_filed)) = self.filed.split_first() else {
            self.reported = more_reported;
            return Some(Balance::reported(reported));
        };
        match order(reported, filed) {
            Ordering::Less => {
                self.reported = more_reported;
                Some(Balance::reported(reported))
            }
            Ordering::Equal => {
                self.reported = more_reported;
                self.filed = more_filed;
                Some(Balance::both(reported, filed))
            }
            Ordering::Greater => {
                self.filed = more_filed;
                Some(Balance::filed(filed))
            }
        }
    }
}

/// The order of two outputs: by key, then by name.
fn order(a: &Due, b: &Due) -> Ordering
    ensures { result ≡ account_cmp (account_of a.now) (account_of b.now) }
{
    a.key.cmp(&b.key).then(a.name.cmp(&b.name))
}
