// What syncplan prints for the texts of three files.
#![tactic(auto)]

ghost use Rattle.listing_spell.specs.Puts.{Puts};
ghost use Rattle.printout_text.specs.Printed.{printed};

use tree::Profile;

// What is printed for three texts in a profile: the bytes that fit into out, and how many there are, at most 1,048,576. A text of more
// than 16,384 bytes is refused with 6, so a file that is not there is given as one. Each file has a branch of its own, since each is
// called by its name.
pub fn print_plan(
    profile: Profile,
    out: &mut [u8],
    archive: &[u8],
    left: &[u8],
    right: &[u8],
) -> usize
    ensures { Puts out.old 0 (printed profile archive.now left.now right.now) 1048576 result out.new }
{
    let mut o = [0u32; 2560];
    let mut l = [0u32; 2560];
    let mut r = [0u32; 2560];
    let a = match printout_file::read_file(profile, archive, &mut o) {
        Ok(rows) => rows,
        Err(refusal) => return printout_file::put_refused(out, b"archive", refusal),
    };
    let b = match printout_file::read_file(profile, left, &mut l) {
        Ok(rows) => rows,
        Err(refusal) => return printout_file::put_refused(out, b"left", refusal),
    };
    let c = match printout_file::read_file(profile, right, &mut r) {
        Ok(rows) => rows,
        Err(refusal) => return printout_file::put_refused(out, b"right", refusal),
    };
    printout_run::put_run(profile, out, &o[..20 * a], &l[..20 * b], &r[..20 * c])
}
