// Exported: registration, without a parent and under one.
ghost use Rattle.rules.specs.Holds.{port};
ghost use Rattle.rules.specs.Steps.{Register};
ghost use Rattle.registry_register.specs.Written.{definition};
ghost use Rattle.host.specs.Tells.{DoesAndTells};

use host_answers::ANSWER;
use memory::WORDS;

#[unsafe(no_mangle)]
pub extern "C" fn vaskelbi_register(
    m: &mut [u64; WORDS],
    key: u64,
    realm: u64,
    payload: u64,
    realms: &[u64],
    dependencies: &[u64],
    provisions: &[u64],
    out: &mut [u64; ANSWER],
) -> u64
    ensures { DoesAndTells m.old (Register
        (definition None (port key realm) realms.now dependencies.now provisions.now payload))
        out.old result out.new m.new }
{
    host::vaskelbi_register(
        m,
        key,
        realm,
        payload,
        realms,
        dependencies,
        provisions,
        out,
    )
}

#[unsafe(no_mangle)]
pub extern "C" fn vaskelbi_register_child(
    m: &mut [u64; WORDS],
    parent: u64,
    key: u64,
    realm: u64,
    payload: u64,
    realms: &[u64],
    dependencies: &[u64],
    provisions: &[u64],
    out: &mut [u64; ANSWER],
) -> u64
    ensures { DoesAndTells m.old (Register
        (definition (Some parent) (port key realm) realms.now dependencies.now provisions.now payload))
        out.old result out.new m.new }
{
    host::vaskelbi_register_child(
        m,
        parent,
        key,
        realm,
        payload,
        realms,
        dependencies,
        provisions,
        out,
    )
}
