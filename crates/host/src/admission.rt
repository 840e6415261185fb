// Admission and call.
ghost use Rattle.rules.specs.Steps.{Admit, Call, Ask};
ghost use Rattle.rules.specs.Questions.{Admits};
ghost use Rattle.registry_admit.specs.Answers.{ticket, invocation};
ghost use Rattle.host_answers.specs.Told.{Tells};
ghost use Rattle.host.specs.Tells.{answer, DoesAndTells};

use host_answers::ANSWER;
use memory::WORDS;
use registry_live::Invocation;
use registry_table::Ticket;

// It answers an invocation: domain, id, generation, revision, argument.
pub fn vaskelbi_admit(
    m: &mut [u64; WORDS],
    domain: u64,
    id: u64,
    generation: u64,
    kind: u64,
    argument: u64,
    out: &mut [u64; ANSWER],
) -> u64
    ensures { DoesAndTells m.old (Admit (ticket domain id generation kind) argument)
        out.old result out.new m.new }
{
    let ticket = Ticket {
        domain,
        id,
        generation,
        kind,
    };
    host_answers::admitted(registry_admit::admit(m, ticket, argument), out)
}

// Whether a ticket would be admitted.
pub fn vaskelbi_admits(
    m: &[u64; WORDS],
    domain: u64,
    id: u64,
    generation: u64,
    kind: u64,
    out: &mut [u64; ANSWER],
) -> u64
    ensures { Tells (answer m.now (Ask (Admits (ticket domain id generation kind)))) out.old result out.new }
{
    let ticket = Ticket {
        domain,
        id,
        generation,
        kind,
    };
    host_answers::yes_or_no(registry_admit::admits(m, ticket), out)
}

// It answers a receipt: domain, id, generation, request, payload, argument.
pub fn vaskelbi_call(
    m: &mut [u64; WORDS],
    domain: u64,
    id: u64,
    generation: u64,
    revision: u64,
    argument: u64,
    out: &mut [u64; ANSWER],
) -> u64
    ensures { DoesAndTells m.old (Call (invocation domain id generation revision argument))
        out.old result out.new m.new }
{
    let invocation = Invocation {
        domain,
        id,
        generation,
        revision,
        argument,
    };
    host_answers::called(registry_admit::call(m, invocation), out)
}
