ghost use Rattle.std.specs.Prelude.{◌≡◌, true, Some, None as Absent, Ok, Err, MatchResult};
ghost use Rattle.explorer.specs.Told.{state};
ghost use Rattle.explorer_tests.specs.Held.{holds, Ends};

use crate::too_wide::TooWide;
use explorer::explorer::Explorer;
use explorer::refusal::Refusal;
use explorer::report::Report;
use explorer::returned::Returned;
use explorer::ticket::Ticket;
use explorer::verdict::Verdict;
use machine::machine::Machine;
use store::row_store::RowStore;
use store::store::Store;

// An explorer together with its ticket, while that is out. Where an asker goes out of scope, as at the `?` of a
// test, its ticket is given back, so that a test can end anywhere.
pub(crate) struct Asker {
    explorer: Explorer,
    ticket: Option<Ticket>,
    ghost held: { holds (state explorer) ticket ≡ true },
}

// abandon looks at nothing but the ticket, so any machine and store do.
impl Drop for Asker {
    #[tactic(auto, using(crate::proofs::Holding::never_refused))]
    fn drop(self) {
        let Asker {
            mut explorer,
            ticket,
        } = self;
        if let Some(ticket) = ticket {
            match explorer.abandon(ticket, &TooWide, &RowStore::new(1, &mut [])) {
                Ok(()) => {}
                Err(_) => unreachable(),
            }
        }
    }
}

impl Asker {
    // An asker whose explorer has that number.
    pub(crate) fn new(number: u16) -> Asker {
        Asker {
            explorer: Explorer::new(number),
            ticket: None,
        }
    }

    #[tactic(auto, using(crate::proofs::Holding::begun_none, crate::proofs::Holding::begun_held, crate::proofs::Holding::held_refused))]
    pub(crate) fn begin<M: Machine, S: Store>(
        &mut self,
        machine: &M,
        store: &mut S,
    ) -> Result<(), Refusal> {
        let ticket = self.explorer.begin(machine, store)?;
        put_back(&mut self.ticket, ticket);
        Ok(())
    }

    // The calls that show a ticket: the asker's own or, where another asker is named, that one's. Where the one that is
    // to show it holds none, 24 is told, as with no ticket out.

    #[tactic(auto, using(crate::proofs::Holding::held_advanced))]
    pub(crate) fn advance<M: Machine, S: Store>(
        &mut self,
        other: Option<&Asker>,
        machine: &M,
        store: &mut S,
        grant: u16,
    ) -> Result<(u16, Verdict), Refusal> {
        let ticket = shown(&self.ticket, other)?;
        self.explorer.advance(ticket, machine, store, grant)
    }

    pub(crate) fn verdict<M: Machine, S: Store>(
        &self,
        other: Option<&Asker>,
        machine: &M,
        store: &S,
    ) -> Result<Report, Refusal> {
        let ticket = shown(&self.ticket, other)?;
        self.explorer.verdict(ticket, machine, store)
    }

    pub(crate) fn trace<M: Machine, S: Store>(
        &self,
        other: Option<&Asker>,
        machine: &M,
        store: &S,
        area: &mut [u8],
    ) -> Result<u16, Refusal> {
        let ticket = shown(&self.ticket, other)?;
        self.explorer.trace(ticket, machine, store, area)
    }

    // Where another asker's ticket is taken, the other holds this one's from then on.

    pub(crate) fn settle<M: Machine, S: Store>(
        &mut self,
        other: Option<&mut Asker>,
        machine: &M,
        store: &S,
    ) -> Result<(Verdict, u16), Refusal> {
        let Some(other) = other else {
            return settle_by(&mut self.explorer, &mut self.ticket, machine, store);
        };
        let ending = settle_by(&mut self.explorer, &mut other.ticket, machine, store)?;
        pass_on(&mut self.ticket, &mut other.ticket);
        Ok(ending)
    }

    pub(crate) fn abandon<M: Machine, S: Store>(
        &mut self,
        other: Option<&mut Asker>,
        machine: &M,
        store: &S,
    ) -> Result<(), Refusal> {
        let Some(other) = other else {
            return abandon_by(&mut self.explorer, &mut self.ticket, machine, store);
        };
        abandon_by(&mut self.explorer, &mut other.ticket, machine, store)?;
        pass_on(&mut self.ticket, &mut other.ticket);
        Ok(())
    }
}

// The ticket that a call is shown.
fn shown<'a>(own: &'a Option<Ticket>, other: Option<&'a Asker>) -> Result<&'a Ticket, Refusal> {
    let place = other.map_or(own, |other| &other.ticket);
    place.as_ref().ok_or(Refusal::NoTicket)
}

// The calls that take the ticket, out of that place. Two functions of two lines, which differ in the call and in what it
// tells; putting back what a refusal hands back is given_back for both.

fn settle_by<M: Machine, S: Store>(
    explorer: &mut Explorer,
    place: &mut Option<Ticket>,
    machine: &M,
    store: &S,
) -> Result<(Verdict, u16), Refusal>
    ensures { Ends (state explorer.old) place.old result (state explorer.new) place.new }
{
    let ticket = place.take().ok_or(Refusal::NoTicket)?;
    given_back(place, explorer.settle(ticket, machine, store))
}

#[tactic(auto, using(crate::proofs::Holding::abandon_ends))]
fn abandon_by<M: Machine, S: Store>(
    explorer: &mut Explorer,
    place: &mut Option<Ticket>,
    machine: &M,
    store: &S,
) -> Result<(), Refusal>
    ensures { Ends (state explorer.old) place.old result (state explorer.new) place.new }
{
    let ticket = place.take().ok_or(Refusal::NoTicket)?;
    given_back(place, explorer.abandon(ticket, machine, store))
}

// What a call tells that takes the ticket. Refused, the ticket goes back into its place.
fn given_back<T: Drop>(
    place: &mut Option<Ticket>,
    answer: Result<T, Returned>,
) -> Result<T, Refusal>
    requires { place.old ≡ Absent }
    ensures { MatchResult answer (λ x. (result ≡ Ok x) × (place.new ≡ Absent)) (λ r. (result ≡ Err r.refusal) × (place.new ≡ Some r.ticket)) }
{
    match answer {
        Ok(ending) => Ok(ending),
        Err(Returned { ticket, refusal }) => {
            put_back(place, ticket);
            Err(refusal)
        }
    }
}

// The ticket goes into a place that holds none.
fn put_back(place: &mut Option<Ticket>, ticket: Ticket)
    requires { place.old ≡ Absent }
    ensures { place.new ≡ Some ticket }
{
    match place.replace(ticket) {
        None => {}
        Some(_) => unreachable(),
    }
}

// What the one place holds goes into the other, which holds none.
fn pass_on(from: &mut Option<Ticket>, to: &mut Option<Ticket>)
    requires { to.old ≡ Absent }
    ensures left { from.new ≡ Absent }
    ensures held { to.new ≡ from.old }
{
    std::mem::swap(from, to);
}
