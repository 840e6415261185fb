// The console's operations on one registry. Each is told by its place among the names, and gives a status.
#![tactic(auto)]

ghost use Rattle.std.specs.Prelude.{◌≡◌, [], ◌∷◌};
ghost use Rattle.host_answers.specs.Told.{counted as told};
ghost use Rattle.demands.specs.Starts.{blank};
ghost use Rattle.console_names.specs.Table.{asked, asked_at};
ghost use Rattle.console_operations.specs.Asked.{which_of};
ghost use Rattle.console_operations.specs.Carried.{Carried, Lists};

use console_names::{BAD, BUFFER_ROOM, Held, Kind, Request, Row};
use host_answers::ANSWER;
use memory::WORDS;

// One number, as an answer.
fn one(n: u64, out: &mut [u64; ANSWER]) -> u64
    ensures { (result ≡ 0) × (out.new ≡ told (n ∷ []) out.old) }
{
    out[0] = 1;
    out[1] = n;
    0
}

fn opened(m: &mut [u64; WORDS], domain: u64, first: u64) -> u64
    ensures { (result ≡ 0) × (m.new ≡ blank m.old domain first) }
{
    host::vaskelbi_open(m, domain, first);
    0
}

// What a request of the numbers l asks the registry for. A number that is missing is 0.
fn requested(m: &mut [u64; WORDS], ask: Request, l: &[u64], out: &mut [u64; ANSWER]) -> u64
    ensures { Carried m.old (asked ask l.now) out.old result out.new m.new }
{
    let a = console_names::nth(l, 0);
    let b = console_names::nth(l, 1);
    let c = console_names::nth(l, 2);
    let d = console_names::nth(l, 3);
    let e = console_names::nth(l, 4);
    match ask {
        Request::Open => opened(m, a, b),
        Request::Begin => host::vaskelbi_begin(m, a, out),
        Request::Ready => host::vaskelbi_ready(m, a),
        Request::Fail => host::vaskelbi_fail(m, a),
        Request::Unload => host::vaskelbi_unload(m, a),
        Request::Finish => host::vaskelbi_finish(m, a),
        Request::Replace => host::vaskelbi_replace(m, a, b, out),
        Request::Fits => host::vaskelbi_fits(m, a, b, out),
        Request::Admit => host::vaskelbi_admit(m, a, b, c, d, e, out),
        Request::Call => host::vaskelbi_call(m, a, b, c, d, e, out),
        Request::Retire => host::vaskelbi_retire(m, a),
        Request::RetireChild => host::vaskelbi_retire_child(m, a, b, c),
        Request::Remove => host::vaskelbi_remove(m, a),
        Request::Child => host::vaskelbi_child(m, a, out),
        Request::Offer => host::vaskelbi_offer(m, a, b, c, d),
        Request::Read => host::vaskelbi_read(m, a, b, c, out),
        Request::Visible => host::vaskelbi_visible(m, a, b, out),
        Request::Missing => host::vaskelbi_missing(m, a, out),
        Request::Matches => host::vaskelbi_matches(m, a, console_names::rest(l), out),
        Request::Declares => host::vaskelbi_declares(m, a, b, c, out),
        Request::Lookup => host::vaskelbi_lookup(m, a, b, out),
        Request::Resolve => host::vaskelbi_resolve(console_names::rest(l), a, out),
        Request::Rows => one(host::vaskelbi_rows(m), out),
        Request::Count => one(host::vaskelbi_count(m), out),
        Request::Next => one(host::vaskelbi_next(m), out),
        Request::Edition => host::vaskelbi_edition(m, a, out),
    }
}

// What the numbers l behind the name at this place ask the registry for. A place whose row asks it for nothing is bad, and changes
// nothing.
pub fn carried_out(m: &mut [u64; WORDS], place: usize, l: &[u64], out: &mut [u64; ANSWER]) -> u64
    ensures { Carried m.old (asked_at place l.now) out.old result out.new m.new }
{
    match console_names::row_at(place) {
        Row::Takes(_, Kind::Registry(ask, _)) => requested(m, ask, l, out),
        _ => BAD,
    }
}

// A plugin's list goes into the buffer from a place on.
pub fn listed(
    m: &[u64; WORDS],
    buffer: &mut [u64; BUFFER_ROOM],
    held: Held,
    id: u64,
    from: u64,
    out: &mut [u64; ANSWER],
) -> u64
    ensures { Lists m.now (which_of held) id from buffer.old out.old result out.new buffer.new }
{
    let at = from as usize;
    match held {
        Held::Deps => host::vaskelbi_list_dependencies(m, id, at, buffer, out),
        Held::Provs => host::vaskelbi_list_provisions(m, id, at, buffer, out),
        Held::Realms => host::vaskelbi_list_realms(m, id, at, buffer, out),
    }
}
