//! A test of all rows of a kind.

ghost use Rattle.std.specs.Prelude.{◌↔◌, IfOk, IsTrue};
ghost use Rattle.sn_account.specs.Walks.{AllPass};
ghost use Rattle.sn_rows.specs.declared.key.Key.{Key};
ghost use Rattle.sn_rows.specs.declared.value.Value.{Value};

use sn_row_map::RowMap;
use sn_rows::{Key, RowKind, Value};
use std::alloc::AllocError;

/// What is asked of each row.
pub(crate) trait RowTest {
    ghost ready: { Self → Type 0 };

    ghost holds: { Self → Key → Value → Type 0 };

    fn passes(&self, key: &Key, value: &Value) -> Result<bool, AllocError>
        requires { ready self.now }
        ensures { IfOk result (λ passed. IsTrue passed ↔ holds self.now key.now value.now) };
}

/// Whether all rows of a kind pass. No row is copied.
pub(crate) fn all_pass<T: RowTest>(
    map: &RowMap,
    kind: RowKind,
    test: &T,
) -> Result<bool, AllocError>
    requires { T.ready test.now }
    ensures { IfOk result (λ passed. IsTrue passed ↔ AllPass (T.holds test.now) map.now kind) }
{
    let mut found = map.first(kind);
    'rows: while let Some((key, value)) = found {
        if !test.passes(key, value)? {
            return Ok(false);
        }
        found = map.next_after(key);
    }
    Ok(true)
}
