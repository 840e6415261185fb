// Document 01, "Lists": ports are listed from the place in the lent buffer that the caller names.
#![tactic(auto)]

ghost use Rattle.std.specs.Prelude.{◌≡◌, ◌++◌, ◌≤◌, length, drop};
ghost use Rattle.rules.specs.Ports.{pairs, flat};
ghost use Rattle.rules.specs.Answers.{number_answer};
ghost use Rattle.ports_listed.specs.Answers.{Lists};

use rules::Refusal;

// The pair writer: the whole pairs of a list go to the front of out; its rest stays. Both numbers are read before either is written, so
// that a pair moves at once.
fn put_pairs(ports: &[u64], out: &mut [u64])
    requires { length (flat (pairs ports.now)) ≤ length out.old }
    ensures { out.new ≡ flat (pairs ports.now) ++ drop (length (flat (pairs ports.now))) out.old }
{
    for row in 0..ports.len() / 2 {
        let key = ports[row * 2];
        let realm = ports[row * 2 + 1];
        out[row * 2] = key;
        out[row * 2 + 1] = realm;
    }
}

// 23 if the place is past the end or the room from it to the end is too small; nothing is written then.
pub fn list_ports(place: usize, ports: &[u64], buffer: &mut [u64]) -> Result<u64, Refusal>
    ensures { Lists (pairs ports.now) place buffer.old (number_answer result) buffer.new }
{
    let count = ports.len() / 2;
    if buffer.len() < place {
        return Err(Refusal::ShortBuffer);
    }
    if buffer.len() - place < count * 2 {
        return Err(Refusal::ShortBuffer);
    }
    put_pairs(ports, &mut buffer[place..]);
    Ok(count as u64)
}
