// Document 01, "Ports and realms": lists of ports, lent as key, realm, key, realm. Every function takes any list.
#![tactic(auto)]

ghost use Rattle.std.specs.Prelude.{◌≡◌, not, ◌&&◌, eqb, get_or};
ghost use Rattle.rules.specs.Basics.{any};
ghost use Rattle.rules.specs.Holds.{port, is_in};
ghost use Rattle.rules.specs.Ports.{pairs, odd_length, same_ports};
ghost use Rattle.rules.specs.Registration.{repeats};
ghost use Rattle.ports.specs.Answers.{first_from};

use rules::Port;

// Whether a port is in the list. From the last to the first: a loop that counts down to 0 is a step less a turn.
pub fn has_port(ports: &[u64], port: Port) -> bool
    ensures { result ≡ is_in port (pairs ports.now) }
{
    for pair in ports[..ports.len() / 2 * 2].rchunks_exact(2) {
        if pair[0] == port.key && pair[1] == port.realm {
            return true;
        }
    }
    false
}

// Whether a number is among these: a key, or an id. From the last to the first: an order's check looks for the id right before.
pub fn has_number(numbers: &[u64], n: u64) -> bool
    ensures { result ≡ any (eqb n) numbers.now }
{
    for i in (0..numbers.len()).rev() {
        if numbers[i] == n {
            return true;
        }
    }
    false
}

// The port of a row of the list, and (0, 0) past its end.
pub fn port_at(ports: &[u64], row: usize) -> Port
    ensures { result ≡ get_or (pairs ports.now) row (port 0 0) }
{
    if row < ports.len() / 2 {
        Port::new(ports[row * 2], ports[row * 2 + 1])
    } else {
        Port::new(0, 0)
    }
}

// The place of the first port with the key: the search stops there.
pub fn first_port(ports: &[u64], key: u64) -> Option<usize>
    ensures { result ≡ first_from 0 key (pairs ports.now) }
{
    let mut i: usize = 0;
    let at = loop {
        if ports.len() / 2 <= i {
            break i;
        }
        if ports[i * 2] == key {
            break i;
        }
        i += 1;
    };
    if at < ports.len() / 2 { Some(at) } else { None }
}

// Whether a list is these ports in order; an odd length answers no. Two numbers a turn, in half the time of `==` on the lists.
pub fn same_ports(list: &[u64], ports: &[u64]) -> bool
    ensures { result ≡ (not (odd_length list.now) && same_ports (pairs list.now) (pairs ports.now)) }
{
    if list.len() % 2 != 0 {
        return false;
    }
    let rows = list.len() / 2;
    if rows != ports.len() / 2 {
        return false;
    }
    for row in 0..rows {
        if list[row * 2] != ports[row * 2] {
            return false;
        }
        if list[row * 2 + 1] != ports[row * 2 + 1] {
            return false;
        }
    }
    true
}

// Whether two of the ports are alike.
pub fn repeated(ports: &[u64]) -> bool
    ensures { result ≡ repeats (pairs ports.now) }
{
    for row in 0..ports.len() / 2 {
        let at = row * 2;
        if has_port(
            &ports[at + 2..],
            Port {
                key: ports[at],
                realm: ports[at + 1],
            },
        ) {
            return true;
        }
    }
    false
}
