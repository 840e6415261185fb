// Values: they are offered and read, and what a plugin declares or still lacks is asked.
ghost use Rattle.rules.specs.Holds.{port};
ghost use Rattle.rules.specs.Steps.{Offer, Ask};
ghost use Rattle.rules.specs.Questions.{Read, Visible, Own, FirstMissing, Matching, Declares};
ghost use Rattle.host_answers.specs.Told.{Tells};
ghost use Rattle.host.specs.Tells.{answer, Does};

use host_answers::ANSWER;
use memory::WORDS;
use rules::Port;

pub fn vaskelbi_offer(m: &mut [u64; WORDS], id: u64, key: u64, realm: u64, value: u64) -> u64
    ensures { Does m.old (Offer id (port key realm) value) result m.new }
{
    host_answers::done(registry_offer::offer(m, id, Port { key, realm }, value))
}

// It answers the value and its provider's id.
pub fn vaskelbi_read(
    m: &[u64; WORDS],
    id: u64,
    key: u64,
    realm: u64,
    out: &mut [u64; ANSWER],
) -> u64
    ensures { Tells (answer m.now (Ask (Read id (port key realm)))) out.old result out.new }
{
    host_answers::reading(registry_values::read(m, id, Port { key, realm }), out)
}

// The Active provider's value, or no number.
pub fn vaskelbi_visible(m: &[u64; WORDS], key: u64, realm: u64, out: &mut [u64; ANSWER]) -> u64
    ensures { Tells (answer m.now (Ask (Visible (port key realm)))) out.old result out.new }
{
    host_answers::optional(registry_values::visible(m, Port { key, realm }), out)
}

// A plugin's own value of a provision, or no number.
pub fn vaskelbi_own(m: &[u64; WORDS], id: u64, key: u64, realm: u64, out: &mut [u64; ANSWER]) -> u64
    ensures { Tells (answer m.now (Ask (Own id (port key realm)))) out.old result out.new }
{
    host_answers::perhaps(registry_values::own(m, id, Port { key, realm }), out)
}

// The first provision without a value, or no number.
pub fn vaskelbi_missing(m: &[u64; WORDS], id: u64, out: &mut [u64; ANSWER]) -> u64
    ensures { Tells (answer m.now (Ask (FirstMissing id))) out.old result out.new }
{
    host_answers::port(registry_values::missing(m, id), out)
}

// Whether a list of key, realm pairs is the plugin's provision list.
pub fn vaskelbi_matches(m: &[u64; WORDS], id: u64, list: &[u64], out: &mut [u64; ANSWER]) -> u64
    ensures { Tells (answer m.now (Ask (Matching id list.now))) out.old result out.new }
{
    host_answers::whether(registry_values::matches(m, id, list), out)
}

pub fn vaskelbi_declares(
    m: &[u64; WORDS],
    id: u64,
    key: u64,
    realm: u64,
    out: &mut [u64; ANSWER],
) -> u64
    ensures { Tells (answer m.now (Ask (Declares id (port key realm)))) out.old result out.new }
{
    host_answers::whether(registry_values::declares(m, id, Port { key, realm }), out)
}
