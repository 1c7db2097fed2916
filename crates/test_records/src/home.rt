//! How many situations a home by the rule of miss registers reaches, and that each has moves that lead into it.
ghost use Rattle.std.specs.Prelude.{◌≤◌, ◌<◌};

use std::alloc::Global;
use std::test::Fail;
use tl_types::CLIENTS;
use tlcheck_home::HomeTable;
use tlcheck_situations::TableError;

/// How many situations home reaches with so many clients, if moves into each of them are answered.
fn reached(alloc: Global, clients: u32) -> Result<Option<usize>, TableError>
    requires some { 0 < clients }
    requires few { clients ≤ CLIENTS }
{
    let table = HomeTable::new(alloc, clients)?;
    for situation in table.situations() {
        if table.moves_into(alloc, situation)?.is_none() {
            return Ok(None);
        }
    }
    Ok(Some(table.situations().len()))
}

#[test]
fn what_home_reaches(rt: HostRuntime) -> Result<(), Fail> {
    assert_eq!(rt; reached(rt.alloc(), 1)?, Some(191));
    assert_eq!(rt; reached(rt.alloc(), 2)?, Some(915));
    Ok(())
}
