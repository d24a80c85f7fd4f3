//! The table of the thirteen kinds: the numbers that each uses, their ranges, and the sorts of its items.
ghost use Rattle.std.specs.Prelude.{◌≡◌};
ghost use Rattle.model.specs.Form.{row as row_of};

use model::span::{ENTITY, ITEM, LEVEL, MARK, NONE, ROLE, SESSION};
use model::{Kind, Row, Sort, Span};

/// A row for each kind, in the order of the kinds.
// An array, and no `match`: it reads like the table of the rules.
#[rattlefmt::skip]
const ROWS: [Row; 13] = [
    // take
    Row { r: ROLE, y: NONE, z: NONE, l: NONE, m: NONE, y_is: Sort::Any, z_is: Sort::Any },
    // drop
    Row { r: ROLE, y: NONE, z: NONE, l: NONE, m: NONE, y_is: Sort::Any, z_is: Sort::Any },
    // grant
    Row { r: ROLE, y: ITEM, z: NONE, l: NONE, m: Span::Right, y_is: Sort::Live, z_is: Sort::Any },
    // revoke
    Row { r: ROLE, y: ITEM, z: NONE, l: NONE, m: Span::Right, y_is: Sort::Live, z_is: Sort::Any },
    // object
    Row { r: ROLE, y: ENTITY, z: ENTITY, l: LEVEL, m: NONE, y_is: Sort::New, z_is: Sort::Container },
    // container
    Row { r: ROLE, y: ENTITY, z: ENTITY, l: LEVEL, m: MARK, y_is: Sort::New, z_is: Sort::Container },
    // link
    Row { r: NONE, y: ENTITY, z: ENTITY, l: NONE, m: NONE, y_is: Sort::Object, z_is: Sort::Container },
    // unlink
    Row { r: NONE, y: ENTITY, z: ENTITY, l: NONE, m: NONE, y_is: Sort::Object, z_is: Sort::Container },
    // delete
    Row { r: NONE, y: ENTITY, z: ENTITY, l: NONE, m: NONE, y_is: Sort::Live, z_is: Sort::Container },
    // open
    Row { r: ROLE, y: ENTITY, z: SESSION, l: LEVEL, m: NONE, y_is: Sort::Object, z_is: Sort::New },
    // close
    Row { r: NONE, y: SESSION, z: NONE, l: NONE, m: NONE, y_is: Sort::Live, z_is: Sort::Any },
    // gain
    Row { r: NONE, y: ITEM, z: NONE, l: NONE, m: Span::Access, y_is: Sort::Live, z_is: Sort::Any },
    // giveup
    Row { r: NONE, y: ITEM, z: NONE, l: NONE, m: Span::Access, y_is: Sort::Live, z_is: Sort::Any },
];

/// The row of a kind.
pub(crate) fn row(kind: Kind) -> Row
    ensures { result ≡ row_of kind }
{
    ROWS[kind as usize]
}
