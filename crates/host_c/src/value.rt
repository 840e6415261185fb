// Exported: values offered and read, and what a plugin declares or still lacks.
ghost use Rattle.rules.specs.Holds.{port};
ghost use Rattle.rules.specs.Steps.{Offer, Ask};
ghost use Rattle.rules.specs.Questions.{Read, Visible, Own, FirstMissing, Matching, Declares};
ghost use Rattle.host_answers.specs.Told.{Tells};
ghost use Rattle.host.specs.Tells.{answer, Does};

use host_answers::ANSWER;
use memory::WORDS;

#[unsafe(no_mangle)]
pub extern "C" fn vaskelbi_offer(
    m: &mut [u64; WORDS],
    id: u64,
    key: u64,
    realm: u64,
    value: u64,
) -> u64
    ensures { Does m.old (Offer id (port key realm) value) result m.new }
{
    host::vaskelbi_offer(m, id, key, realm, value)
}

#[unsafe(no_mangle)]
pub extern "C" fn vaskelbi_read(
    m: &[u64; WORDS],
    id: u64,
    key: u64,
    realm: u64,
    out: &mut [u64; ANSWER],
) -> u64
    ensures { Tells (answer m.now (Ask (Read id (port key realm)))) out.old result out.new }
{
    host::vaskelbi_read(m, id, key, realm, out)
}

#[unsafe(no_mangle)]
pub extern "C" fn vaskelbi_visible(
    m: &[u64; WORDS],
    key: u64,
    realm: u64,
    out: &mut [u64; ANSWER],
) -> u64
    ensures { Tells (answer m.now (Ask (Visible (port key realm)))) out.old result out.new }
{
    host::vaskelbi_visible(m, key, realm, out)
}

#[unsafe(no_mangle)]
pub extern "C" fn vaskelbi_own(
    m: &[u64; WORDS],
    id: u64,
    key: u64,
    realm: u64,
    out: &mut [u64; ANSWER],
) -> u64
    ensures { Tells (answer m.now (Ask (Own id (port key realm)))) out.old result out.new }
{
    host::vaskelbi_own(m, id, key, realm, out)
}

#[unsafe(no_mangle)]
pub extern "C" fn vaskelbi_missing(m: &[u64; WORDS], id: u64, out: &mut [u64; ANSWER]) -> u64
    ensures { Tells (answer m.now (Ask (FirstMissing id))) out.old result out.new }
{
    host::vaskelbi_missing(m, id, out)
}

#[unsafe(no_mangle)]
pub extern "C" fn vaskelbi_matches(
    m: &[u64; WORDS],
    id: u64,
    list: &[u64],
    out: &mut [u64; ANSWER],
) -> u64
    ensures { Tells (answer m.now (Ask (Matching id list.now))) out.old result out.new }
{
    host::vaskelbi_matches(m, id, list, out)
}

#[unsafe(no_mangle)]
pub extern "C" fn vaskelbi_declares(
    m: &[u64; WORDS],
    id: u64,
    key: u64,
    realm: u64,
    out: &mut [u64; ANSWER],
) -> u64
    ensures { Tells (answer m.now (Ask (Declares id (port key realm)))) out.old result out.new }
{
    host::vaskelbi_declares(m, id, key, realm, out)
}
