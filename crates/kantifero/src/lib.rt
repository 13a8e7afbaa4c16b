// The public calls for programs in C and Rust. Each takes its profile as a word, and every answer is eight words, all of which
// are written.
#![tactic(auto)]

ghost use Rattle.std.specs.Prelude.{◌≡◌, ◌<◌};
ghost use Rattle.plan_run.specs.Run.{lent};
ghost use Rattle.kantifero_calls.specs.Words.{profile_of, check_words, tally_in};
ghost use Rattle.kantifero_calls.specs.Calls.{ReconcileCall, MoveCall, WriteCall, ReadCall};
ghost use Rattle.kantifero_calls.specs.Carried.{CarriedCall};

use plan_tally::Tally;

// Whether a table keeps the rules of a profile.
#[unsafe(no_mangle)]
pub extern "C" fn kantifero_check(profile: u32, table: &[u32], answer: &mut [u32; 8])
    ensures { answer.new ≡ check_words (profile_of profile) table.now }
{
    let words = kantifero_words::answer_words(table_answers::check_table(
        kantifero_words::profile_of(profile),
        table,
    ));
    *answer = words;
}

// Reconciles left and right by the archive.
#[unsafe(no_mangle)]
pub extern "C" fn kantifero_reconcile(
    profile: u32,
    archive: &[u32],
    left: &[u32],
    right: &[u32],
    new_archive: &mut [u32],
    new_left: &mut [u32],
    new_right: &mut [u32],
    list: &mut [u32],
    tally: &mut [u32; 3],
    answer: &mut [u32; 8],
)
    ensures { ReconcileCall (profile_of profile) archive.now left.now right.now
        (lent new_archive.old new_left.old new_right.old list.old (tally_in tally.old))
        new_archive.new new_left.new new_right.new list.new tally.new answer.new }
{
    let old = Tally {
        left: tally[0],
        right: tally[1],
        clash: tally[2],
    };
    let ran = reconcile_plain::reconcile_plain(
        kantifero_words::profile_of(profile),
        archive,
        left,
        right,
        new_archive,
        new_left,
        new_right,
        list,
        old,
    );
    let counts = ran.tally;
    let words = kantifero_words::reconciled_words(ran.answer);
    *tally = [counts.left, counts.right, counts.clash];
    *answer = words;
}

// Makes the target's subtree at a path the source's.
#[unsafe(no_mangle)]
pub extern "C" fn kantifero_move(
    profile: u32,
    target: &[u32],
    source: &[u32],
    names: &[[u32; 8]; 16],
    depth: u32,
    res: &mut [u32],
    answer: &mut [u32; 8],
)
    ensures { MoveCall (profile_of profile) target.now source.now names.now depth res.old res.new answer.new }
{
    let path = *names;
    let words = kantifero_words::answer_words(table_move::make_move(
        kantifero_words::profile_of(profile),
        target,
        source,
        path,
        depth,
        res,
    ));
    *answer = words;
}

// Where the rows stand that a list entry carries.
#[unsafe(no_mangle)]
pub extern "C" fn kantifero_carried<'a>(
    profile: u32,
    left: &'a [u32],
    right: &'a [u32],
    kind: u32,
    left_row: u32,
    right_row: u32,
    answer: &mut [u32; 8],
)
    ensures { CarriedCall (profile_of profile) left.now right.now kind left_row right_row answer.new }
{
    let part = table_carry::carried(
        kantifero_words::profile_of(profile),
        left,
        right,
        kind,
        left_row,
        right_row,
    );
    let words = kantifero_words::part_words(kind, left_row, right_row, part.len());
    *answer = words;
}

// Writes a table as a listing.
#[unsafe(no_mangle)]
pub extern "C" fn kantifero_write(
    profile: u32,
    table: &[u32],
    text: &mut [u8],
    answer: &mut [u32; 8],
)
    ensures { WriteCall (profile_of profile) table.now text.old text.new answer.new }
{
    let words = kantifero_words::answer_words(listing_write::write(
        kantifero_words::profile_of(profile),
        table,
        text,
    ));
    *answer = words;
}

// Reads a listing into a table.
#[unsafe(no_mangle)]
pub extern "C" fn kantifero_read(
    profile: u32,
    text: &[u8],
    table: &mut [u32],
    answer: &mut [u32; 8],
)
    ensures { ReadCall (profile_of profile) text.now table.old table.new answer.new }
{
    let words = kantifero_words::answer_words(listing_read::read(
        kantifero_words::profile_of(profile),
        text,
        table,
    ));
    *answer = words;
}
