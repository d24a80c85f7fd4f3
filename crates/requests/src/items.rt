//! The sorts of a request's items.
ghost use Rattle.std.specs.Prelude.{◌≡◌};
ghost use Rattle.block.specs.Reading.{state};
ghost use Rattle.model.specs.Needs.{of_sort as is_of_sort, fresh as is_fresh};

use block::Records;
use model::{Fact, Sort};

/// The item is of the sort.
pub(crate) fn of_sort(records: &Records, sort: Sort, n: u32) -> bool
    ensures { result ≡ is_of_sort (state records.now) sort n }
{
    match sort {
        Sort::Any | Sort::New => true,
        Sort::Live => records.stands(Fact::Lives(n)),
        Sort::Object => records.stands(Fact::Lives(n)) && records.tables.mark(n).is_none(),
        Sort::Container => records.stands(Fact::Lives(n)) && records.tables.mark(n).is_some(),
    }
}

/// A new item's number was never used.
pub(crate) fn fresh(records: &Records, sort: Sort, n: u32) -> bool
    ensures { result ≡ is_fresh (state records.now) sort n }
{
    match sort {
        Sort::New => records.tables.item(n).is_none(),
        _ => true,
    }
}
