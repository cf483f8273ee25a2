//! Names of entries, one list behind another.

ghost use Rattle.std.specs.Prelude.{◌≡◌, ◌++◌, IfOk};

use array_journal::Names;
use blocks_core::Memory;
use std::alloc::Global;

/// Names, and others behind them.
pub fn joined(alloc: Global, names: &Names, more: &Names) -> Result<Names, Memory>
    ensures { IfOk result (λ all. all ≡ names.now ++ more.now) }
{
    let mut all = names.copy(alloc)?;
    for name in more.as_slice() {
        all.push(*name)?;
    }
    Ok(all)
}
