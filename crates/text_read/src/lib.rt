// Reading the registry's text, line by line: what stands at a place of it, with the place behind. Where none goes in, as what was to be
// read before it does not stand there, none comes out.
#![tactic(auto)]

ghost use Rattle.std.specs.Prelude.{◌≡◌};
ghost use Rattle.text_form.specs.Forms.{behind, ◌then◌};
ghost use Rattle.text_form.specs.Lines.{line, number, comma, number_or_none};
ghost use Rattle.rules.specs.Text.Values.{phase, zero_or_one, key_realm, key_realm_value, queued, root_and_queued, edition_and_default};
ghost use Rattle.text_read_number.specs.Reads.{Reads, ReadsFrom, said_as};
ghost use Rattle.text_read.specs.Ways.{provision_of};

use rules::{Edition, Phase, Port, Root};

// A provision, with its value or none.
#[derive(Clone, Copy)]
pub struct Provision {
    pub port: Port,
    pub value: Option<u64>,
}

// `name` and a number: `name` has the equals sign.
pub fn number_line(text: &[u8], at: Option<usize>, name: &[u8]) -> Option<(u64, usize)>
    ensures { ReadsFrom (behind name.now number).read text.now at result }
{
    let at = text_read_number::literal(text, at, name);
    text_read_number::to_end(text, at)
}

// phase: 0 to 3 in table order.
pub fn phase_line(text: &[u8], at: Option<usize>) -> Option<(Phase, usize)>
    ensures { ReadsFrom (line "phase" phase).read text.now at result }
{
    let (n, next) = number_line(text, at, b"phase=")?;
    match n {
        0 => Some((Phase::Idle, next)),
        1 => Some((Phase::Loading, next)),
        2 => Some((Phase::Active, next)),
        3 => Some((Phase::Unloading, next)),
        _ => None,
    }
}

// retired: 0 or 1.
pub fn mark_line(text: &[u8], at: Option<usize>) -> Option<(bool, usize)>
    ensures { ReadsFrom (line "retired" zero_or_one).read text.now at result }
{
    let (n, next) = number_line(text, at, b"retired=")?;
    match n {
        0 => Some((false, next)),
        1 => Some((true, next)),
        _ => None,
    }
}

// number or none
fn number_or_none(text: &[u8], at: usize) -> Option<(Option<u64>, usize)>
    ensures { Reads number_or_none.read text.now at result }
{
    if let Some((n, next)) = text_read_number::to_end(text, Some(at)) {
        return Some((Some(n), next));
    }
    let next = text_read_number::literal(text, Some(at), b"none\n")?;
    Some((None, next))
}

// `name` and a number or none.
pub fn option_line(text: &[u8], at: Option<usize>, name: &[u8]) -> Option<(Option<u64>, usize)>
    ensures { ReadsFrom (behind name.now number_or_none).read text.now at result }
{
    let at = text_read_number::literal(text, at, name)?;
    number_or_none(text, at)
}

// Two numbers with a comma between them.
fn two_numbers(text: &[u8], at: usize) -> Option<((u64, u64), usize)>
    ensures { Reads (comma then number).read text.now at result }
{
    let (first, at) = text_read_number::to_comma(text, Some(at))?;
    let (second, at) = text_read_number::to_end(text, Some(at))?;
    Some(((first, second), at))
}

// `name` and key,realm.
pub fn pair_line(text: &[u8], at: Option<usize>, name: &[u8]) -> Option<(Port, usize)>
    ensures { ReadsFrom (behind name.now key_realm).read text.now at result }
{
    let at = text_read_number::literal(text, at, name)?;
    let ((key, realm), at) = two_numbers(text, at)?;
    Some((Port { key, realm }, at))
}

// `name` and key,realm,value or none.
pub fn provision_line(text: &[u8], at: Option<usize>, name: &[u8]) -> Option<(Provision, usize)>
    ensures { ReadsFrom (behind name.now key_realm_value).read text.now at (said_as provision_of result) }
{
    let at = text_read_number::literal(text, at, name)?;
    let (key, at) = text_read_number::to_comma(text, Some(at))?;
    let (realm, at) = text_read_number::to_comma(text, Some(at))?;
    let (value, at) = number_or_none(text, at)?;
    let port = Port { key, realm };
    Some((Provision { port, value }, at))
}

// root 1, and queued: revision,argument.
fn queued(text: &[u8], at: Option<usize>) -> Option<((u64, u64), usize)>
    ensures { ReadsFrom queued.read text.now at result }
{
    let at = text_read_number::literal(text, at, b"root=1\nqueued=")?;
    two_numbers(text, at)
}

// The two lines root and queued: 0 and none, 1 and revision,argument, or 2 and none.
pub fn root_lines(text: &[u8], at: Option<usize>) -> Option<(Root, usize)>
    ensures { ReadsFrom root_and_queued.read text.now at result }
{
    if let Some(next) = text_read_number::literal(text, at, b"root=0\nqueued=none\n") {
        return Some((Root::Unissued, next));
    }
    if let Some(((revision, argument), next)) = queued(text, at) {
        return Some((Root::Queued(revision, argument), next));
    }
    let next = text_read_number::literal(text, at, b"root=2\nqueued=none\n")?;
    Some((Root::Spent, next))
}

// The two lines edition and default: 1 and 0, or 2 and a number.
pub fn edition_lines(text: &[u8], at: Option<usize>) -> Option<(Edition, usize)>
    ensures { ReadsFrom edition_and_default.read text.now at result }
{
    if let Some(next) = text_read_number::literal(text, at, b"edition=1\ndefault=0\n") {
        return Some((Edition::First, next));
    }
    let (default, next) = number_line(text, at, b"edition=2\ndefault=")?;
    Some((Edition::Second(default), next))
}
