// Holds each call that writes tables, on one log, to the second way.
#![tactic(auto)]

pub mod columns;
pub mod list;
pub mod rows;

use refusals::Refusal;
use trial_base::calls::{Call, Column};
use trial_base::line::Unwritten;
use trial_base::tally::Tally;
use trial_base::way::Case;

// The most rows that can be lent. A case that needs more is not tried, and counts as a difference.
pub const ROOM: usize = 4100;

fn lending<F: FnOnce(&mut Tally, &mut [u16]) -> Result<(), Unwritten>>(
    t: &mut Tally,
    call: Call,
    x: &[u8],
    room: usize,
    compare: F,
) -> Result<(), Unwritten>
    requires { F.IsAlwaysCallable compare }
{
    let mut table = [0u16; ROOM];
    if ROOM < room {
        return t.see(call, x, 0, false);
    }
    compare(t, &mut table[..room])
}

fn plain<F: Fn(&[u8], &mut [u16]) -> Result<(), Refusal>>(
    t: &mut Tally,
    c: Case,
    column: Column,
    room: usize,
    ask: F,
) -> Result<(), Unwritten>
    requires { F.IsAlwaysCallable ask }
{
    lending(t, Call::Table(column), c.x, room, |t, table| {
        columns::plain(t, c, column, table, &ask)
    })
}

fn covers(t: &mut Tally, c: Case, room: usize) -> Result<(), Unwritten> {
    lending(
        t,
        Call::CoverList,
        c.x,
        room,
        |t, table| list::covers_of(t, c, table),
    )
}

// The enhanced table, with tables of a and of b rows.
pub fn enhanced(t: &mut Tally, c: Case, a: usize, b: usize) -> Result<(), Unwritten> {
    lending(t, Call::Enhanced, c.x, a, |t, best| {
        lending(
            t,
            Call::Enhanced,
            c.x,
            b,
            |t, count| columns::enhanced(t, c, best, count),
        )
    })
}

// Every call that writes a table, with tables of a rows, and of b rows where it writes a second one.
// Border and prefix tables are compared at every row.
pub fn with_rooms(t: &mut Tally, c: Case, a: usize, b: usize) -> Result<(), Unwritten> {
    let every = Case::whole(c.way.was, c.x);
    plain(t, every, Column::Border, a, finder::border_table)?;
    plain(t, every, Column::Prefix, a, finder::prefix_table)?;
    plain(t, c, Column::Cover, a, finder::cover_table)?;
    covers(t, c, a)?;
    enhanced(t, c, a, b)
}
