// What a host is told: a status, 0 for an acceptance or the refusal's number, and the answer's numbers behind their count.
#![tactic(auto, unfolding(crate::specs::Told::status_of, crate::specs::Told::words_of))]

ghost use Rattle.std.specs.Prelude.{◌≡◌, ◌<◌, length};
ghost use Rattle.rules.specs.Answers.{option_answer};
ghost use Rattle.registry_admit.specs.Answers.{admits_answer};
ghost use Rattle.host_answers.specs.Told.{status_of, counted, Tells};
ghost use Rattle.host_answers.specs.Answers.{done_by, whether_by, number_by, perhaps_by, port_by, root_by, edition_by, resolved_by};
ghost use Rattle.host_answers.specs.Answers.{begun_by, replaced_by, admitted_by, called_by, child_by, reading_by};

mod why;

use registry_admit::Receipt;
use registry_live::Invocation;
use registry_table::Ticket;
use registry_values::Reading;
use rules::{Edition, Port, Root};
use slot_child::Identity;
pub use why::{Offered, Why};

// A count and up to six numbers.
pub const ANSWER: usize = 7;

// An answer without numbers: its status says all.
pub fn done<E: Why>(a: Result<(), E>) -> u64
    ensures { result ≡ status_of (done_by E.told a) }
{
    match a {
        Ok(()) => 0,
        Err(why) => why.status(),
    }
}

// The numbers of an acceptance, behind their count.
fn tell(numbers: &[u64], out: &mut [u64; ANSWER]) -> u64
    requires { length numbers.now < 7 }
    ensures { (result ≡ 0) × (out.new ≡ counted numbers.now out.old) }
{
    out[0] = numbers.len() as u64;
    for (i, n) in numbers.iter().enumerate() {
        out[i + 1] = *n;
    }
    0
}

pub fn whether<E: Why>(a: Result<bool, E>, out: &mut [u64; ANSWER]) -> u64
    ensures { Tells (whether_by E.told a) out.old result out.new }
{
    match a {
        Ok(yes) => tell(&[yes as u64], out),
        Err(why) => why.status(),
    }
}

pub fn number<E: Why>(a: Result<u64, E>, out: &mut [u64; ANSWER]) -> u64
    ensures { Tells (number_by E.told a) out.old result out.new }
{
    match a {
        Ok(n) => tell(&[n], out),
        Err(why) => why.status(),
    }
}

pub fn perhaps<E: Why>(a: Result<Option<u64>, E>, out: &mut [u64; ANSWER]) -> u64
    ensures { Tells (perhaps_by E.told a) out.old result out.new }
{
    match a {
        Ok(Some(n)) => tell(&[n], out),
        Ok(None) => tell(&[], out),
        Err(why) => why.status(),
    }
}

pub fn port<E: Why>(a: Result<Option<Port>, E>, out: &mut [u64; ANSWER]) -> u64
    ensures { Tells (port_by E.told a) out.old result out.new }
{
    match a {
        Ok(Some(q)) => tell(&[q.key, q.realm], out),
        Ok(None) => tell(&[], out),
        Err(why) => why.status(),
    }
}

pub fn root<E: Why>(a: Result<Root, E>, out: &mut [u64; ANSWER]) -> u64
    ensures { Tells (root_by E.told a) out.old result out.new }
{
    match a {
        Ok(Root::Unissued) => tell(&[0], out),
        Ok(Root::Queued(revision, argument)) => tell(&[1, revision, argument], out),
        Ok(Root::Spent) => tell(&[2], out),
        Err(why) => why.status(),
    }
}

pub fn edition<E: Why>(a: Result<Edition, E>, out: &mut [u64; ANSWER]) -> u64
    ensures { Tells (edition_by E.told a) out.old result out.new }
{
    match a {
        Ok(edition) => tell(&[edition.number(), edition.default()], out),
        Err(why) => why.status(),
    }
}

pub fn resolved<E: Why>(a: Result<Port, E>, out: &mut [u64; ANSWER]) -> u64
    ensures { Tells (resolved_by E.told a) out.old result out.new }
{
    match a {
        Ok(q) => tell(&[q.key, q.realm], out),
        Err(why) => why.status(),
    }
}

pub fn optional(a: Option<u64>, out: &mut [u64; ANSWER]) -> u64
    ensures { Tells (option_answer a) out.old result out.new }
{
    match a {
        Some(n) => tell(&[n], out),
        None => tell(&[], out),
    }
}

pub fn begun<E: Why>(a: Result<Ticket, E>, out: &mut [u64; ANSWER]) -> u64
    ensures { Tells (begun_by E.told a) out.old result out.new }
{
    match a {
        Ok(t) => tell(&[t.domain, t.id, t.generation, t.kind], out),
        Err(why) => why.status(),
    }
}

// A refused replacement answers the offered payload too.
pub fn replaced<E: Offered>(a: Result<u64, E>, out: &mut [u64; ANSWER]) -> u64
    ensures { Tells (replaced_by E.told E.offered a) out.old result out.new }
{
    match a {
        Ok(former) => tell(&[former], out),
        Err(refused) => {
            let (status, payload) = refused.both();
            tell(&[payload], out);
            status
        }
    }
}

pub fn admitted<E: Why>(a: Result<Invocation, E>, out: &mut [u64; ANSWER]) -> u64
    ensures { Tells (admitted_by E.told a) out.old result out.new }
{
    match a {
        Ok(t) => tell(&[t.domain, t.id, t.generation, t.revision, t.argument], out),
        Err(why) => why.status(),
    }
}

pub fn called<E: Why>(a: Result<Receipt, E>, out: &mut [u64; ANSWER]) -> u64
    ensures { Tells (called_by E.told a) out.old result out.new }
{
    match a {
        Ok(t) => tell(
            &[
                t.domain,
                t.id,
                t.generation,
                t.request,
                t.payload,
                t.argument,
            ],
            out,
        ),
        Err(why) => why.status(),
    }
}

pub fn child<E: Why>(a: Result<Option<Identity>, E>, out: &mut [u64; ANSWER]) -> u64
    ensures { Tells (child_by E.told a) out.old result out.new }
{
    match a {
        Ok(Some(c)) => tell(&[c.domain, c.parent, c.id], out),
        Ok(None) => tell(&[], out),
        Err(why) => why.status(),
    }
}

pub fn reading<E: Why>(a: Result<Reading, E>, out: &mut [u64; ANSWER]) -> u64
    ensures { Tells (reading_by E.told a) out.old result out.new }
{
    match a {
        Ok(x) => tell(&[x.value, x.provider], out),
        Err(why) => why.status(),
    }
}

pub fn yes_or_no(a: bool, out: &mut [u64; ANSWER]) -> u64
    ensures { Tells (admits_answer a) out.old result out.new }
{
    tell(&[a as u64], out)
}
