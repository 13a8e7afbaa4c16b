// The answers that tables are due, and the call that checks a table.
#![tactic(auto)]

ghost use Rattle.std.specs.Prelude.{◌≡◌, ◌∷◌, [], ◌-◌, ◌<◌};
ghost use Rattle.table_rules.specs.Refusal.{refusal_of, twins_due};
ghost use Rattle.table_rules.specs.Faults.{first_refusal, unless, room_rule};
ghost use Rattle.table_rules.specs.Contract.{CheckContract};

use table_rules::{Answer, Fault, Refusal, Seen};
use tree::Profile;

// The answer to a table of a side: numbers 1 and 2.
pub fn refusal(seen: Seen, side: u32) -> Answer
    ensures { result ≡ refusal_of seen.rows side }
{
    match seen.rows {
        None => Ok(0),
        Some(Fault::BadLength) => Err(Refusal {
            number: 1,
            side,
            place: 0,
        }),
        Some(Fault::BadRow(place)) => Err(Refusal {
            number: 2,
            side,
            place,
        }),
    }
}

// The answer to a table of a side: number 16.
pub fn twins_refusal(seen: Seen, side: u32) -> Answer
    ensures { result ≡ twins_due seen.twins side }
{
    match seen.twins {
        None => Ok(0),
        Some(place) => Err(Refusal {
            number: 16,
            side,
            place,
        }),
    }
}

// The answer to a check that has no place.
pub fn unless_refused(ok: bool, number: u32, side: u32) -> Answer
    ensures { result ≡ unless ok number side }
{
    if ok {
        return Ok(0);
    }
    Err(Refusal {
        number,
        side,
        place: 0,
    })
}

// Whether a result of n rows is not too long, and has room in the words lent. It is not one with those of listings: `room_rule`,
// `most_rows` and `fits` are three definitions.
pub fn has_room(n: usize, lent: usize) -> bool
    ensures { result ≡ room_rule n lent }
{
    n <= 4096 && n <= lent / 20
}

// Whether a table keeps the rules of a profile: numbers 1, 2 and 16, side 1.
pub fn check_table(profile: Profile, t: &[u32]) -> Answer
    ensures { CheckContract profile t.now result }
{
    let seen = table_check::check(profile, t);
    refusal(seen, 1)?;
    twins_refusal(seen, 1)
}
