//! The laboratory: what a command changes, when it is refused, and what always holds.

ghost use Rattle.std.specs.Prelude.{◌≡◌, ◌≤◌, ◌<◌, true, false, IfOk, IfErr, length};
ghost use Rattle.gas_terms.specs.Cells.{extent, IsEvenTorus};
ghost use Rattle.gas_terms.specs.Rows.{row_bytes};
ghost use Rattle.gas_terms.specs.Commands.{fits};
ghost use Rattle.gas_terms.specs.Laboratory.{most_entries, opening, answer as answer_of, cause, lacks_entry, has_all_ports, bars_way_back, leaves_ticks, lacks_room, Applies, IsAcceptable, IsSound};
ghost use Rattle.gas_terms.specs.declared.command.Command.TheVariants.{Entry as EntryAt};
ghost use Rattle.gas_terms.specs.declared.refusal.Refusal.TheVariants.{Memory};
ghost use Rattle.gas_terms.specs.declared.answer.Answer.TheVariants.{RowIs};
ghost use Rattle.gas_terms.specs.Symmetry.{IsOnOneTorus};
ghost use Rattle.gas_lab.specs.Labs.{Changes, entry_of};

use gas_ledger::{Books, Gas, Port, probe, tally};
use gas_terms::{Answer, Command, Entry, Ledger, NoMemory, Refusal, RowBits, Size};
use phase_step::Stepper;
use std::alloc::Global;
use std::marker::Model;

/// A gas with its ledger, and the journal of the changes that made it.
///
/// Its invariant: the gas is the start replayed by the journal; the ledger is that of the replay, and balances with the gas;
/// steps without ports that were undone left no trace; each entry was accepted by the rules when it was made.
#[derive(Drop)]
pub struct Lab<S: Stepper> {
    start: Gas,
    cap: u32,
    books: Books,
    journal: Vec<Entry>,
    stepper: S,
}

impl<S: Stepper> Model for Lab<S> {
    ghost use Rattle.gas_terms.specs.Laboratory.{Laboratory};
    ghost use Rattle.gas_ledger.specs.Books.{books_of};
    ghost use Rattle.gas_lab.specs.Labs.{IsKept, lab_of};

    ghost Value = { Laboratory };

    ghost view = { λ l. lab_of l.start l.cap (books_of l.books) l.journal.items };

    ghost invariant = { λ l. IsKept (lab_of l.start l.cap (books_of l.books) l.journal.items) };
}

impl<S: Stepper> Lab<S> {
    /// A laboratory with this gas, an empty journal of at most `cap` entries, from 1 to 65,536, and a ledger with the
    /// gas's sums at the start and nothing else. Fails if memory runs out: the gas that changes is a copy of the start.
    pub fn open(alloc: Global, start: Gas, cap: u32, stepper: S) -> Result<Lab<S>, NoMemory>
        requires some { 1 ≤ cap }
        requires cap { cap ≤ most_entries }
        ensures { IfOk result (λ lab. lab ≡ opening start cap) }
    {
        // A gas's type keeps that it is sound.
        start.size();
        let books = Books::open(alloc, &start)?;
        Ok(Lab {
            start,
            cap,
            books,
            journal: Vec::new(alloc),
            stepper,
        })
    }

    /// Does a command of a seat, or refuses it and changes nothing. Memory can run out for a change, a `row?` or an `entry`;
    /// a change is then not begun. The invariant holds before and after.
    pub fn apply(&mut self, seat: u16, command: Command) -> Result<Answer, Refusal>
        requires in_order { fits (extent self.old.start.particles) command ≡ true }
        ensures applied { Applies self.old (entry_of seat command) result self.new }
        ensures before { IsSound self.old }
        ensures after { IsSound self.new }
        ensures few { length self.new.journal ≤ most_entries }
    {
        if let Some(refusal) = self.cause(&command) {
            return Err(refusal);
        }
        match command {
            Command::Probe(area) => {
                let gas = self.gas();
                Ok(Answer::Probed(probe(gas.particles(), area, gas.tick())))
            }
            Command::Tally => {
                let gas = self.gas();
                Ok(Answer::Tallied(gas.tick(), tally(gas.particles(), gas.tick())))
            }
            Command::Ledger => Ok(Answer::Accounts(self.books.ledger)),
            Command::Read(y) => self.row(y),
            Command::Entry(k) => self.entry(k),
            change => self.change(seat, change),
        }
    }
}

impl<S: Stepper> Lab<S> {
    /// The gas that it opened with.
    pub fn start(&self) -> &Gas
        ensures { result.now ≡ self.now.start }
    {
        &self.start
    }

    /// How many entries the journal may have.
    pub fn cap(&self) -> u32
        ensures { result ≡ self.now.cap }
    {
        self.cap
    }

    /// The gas as it is now.
    pub fn gas(&self) -> &Gas
        ensures { result.now ≡ self.now.gas }
    {
        &self.books.gas
    }

    /// The accounts since the start.
    pub fn ledger(&self) -> &Ledger
        ensures { result.now ≡ self.now.ledger }
    {
        &self.books.ledger
    }

    /// The accepted changes, each with its seat.
    pub fn journal(&self) -> &[Entry]
        ensures journal { result.now ≡ self.now.journal }
        ensures room { length self.now.journal ≤ self.now.cap }
        ensures few { length self.now.journal ≤ most_entries }
    {
        self.journal.as_slice()
    }

    /// Does nothing: its contract is the laboratory's invariant.
    pub fn invariant(&self)
        ensures sound { IsSound self.now }
        ensures cap { self.now.cap ≤ most_entries }
        // So the laws of symmetry and of histories hold for the gas of every laboratory.
        ensures torus { IsOnOneTorus self.now.gas }
        ensures full { IsEvenTorus self.now.gas.particles }
    {
        // A read of a field shows the prover what the type keeps, and a gas's size what the gas keeps.
        let _cap = self.cap;
        let _size = self.gas().size();
    }

    /// The width and height of the lattice, which never change.
    pub fn size(&self) -> Size
        ensures start { result ≡ extent self.now.start.particles }
        ensures gas { result ≡ extent self.now.gas.particles }
        ensures sound { IsSound self.now }
        ensures cap { self.now.cap ≤ most_entries }
    {
        self.books.gas.size()
    }

    /// A clone of the gas as it is now. Fails if memory runs out.
    pub fn copy_gas(&self) -> Result<Gas, NoMemory>
        ensures copy { IfOk result (λ gas. gas ≡ self.now.gas) }
        ensures sound { IsSound self.now }
    {
        self.books.gas.copy(*self.journal.allocator())
    }

    // Why the command would be refused, if it would.
    fn cause(&self, command: &Command) -> Option<Refusal>
        ensures { result ≡ cause self.now command.now }
    {
        if self.lacks_entry(command) {
            Some(Refusal::Entry)
        } else if self.has_all_ports(command) {
            Some(Refusal::Full)
        } else if self.bars_way_back(command) {
            Some(Refusal::Ports)
        } else if self.leaves_ticks(command) {
            Some(Refusal::Tick)
        } else if self.lacks_room(command) {
            Some(Refusal::Journal)
        } else {
            None
        }
    }

    fn lacks_entry(&self, command: &Command) -> bool
        ensures { result ≡ lacks_entry self.now command.now }
    {
        match command {
            Command::Entry(k) => self.journal.len() <= *k as usize,
            _ => false,
        }
    }

    fn has_all_ports(&self, command: &Command) -> bool
        ensures { result ≡ has_all_ports self.now.gas command.now }
    {
        let ports = self.books.gas.ports();
        match command {
            Command::Source(area, period) => ports.has_all(&Port::Source(*area, *period)),
            Command::Drain(area) => ports.has_all(&Port::Drain(*area)),
            _ => false,
        }
    }

    fn bars_way_back(&self, command: &Command) -> bool
        ensures { result ≡ bars_way_back self.now command.now }
    {
        match command {
            Command::Back(_) => self.books.gas.ports().any(),
            _ => false,
        }
    }

    fn leaves_ticks(&self, command: &Command) -> bool
        ensures { result ≡ leaves_ticks self.now command.now }
    {
        match command {
            Command::Step(n) => self.books.gas.tick().ahead(*n).is_none(),
            Command::Back(n) => self.books.gas.tick().behind(*n).is_none(),
            _ => false,
        }
    }

    fn lacks_room(&self, command: &Command) -> bool
        ensures { result ≡ lacks_room self.now command.now }
    {
        command.is_change() && self.cap as usize <= self.journal.len()
    }

    // The particles of row y.
    fn row(&self, y: u16) -> Result<Answer, Refusal>
        requires { y < self.now.gas.particles.height }
        ensures ok { IfOk result (λ answer. answer ≡ RowIs (row_bytes self.now.gas.particles y)) }
        ensures err { IfErr result (λ refusal. refusal ≡ Memory) }
    {
        let particles = self.books.gas.particles();
        let len = particles.size().width() as usize / 8;
        let mut row = RowBits::zero(*self.journal.allocator(), len)?;
        particles.row_bytes(y as u32, row.bytes_mut());
        Ok(Answer::RowIs(row))
    }

    // Entry k of the journal.
    fn entry(&self, k: u32) -> Result<Answer, Refusal>
        requires { k < length self.now.journal }
        ensures ok { IfOk result (λ answer. answer ≡ answer_of self.now (EntryAt k)) }
        ensures err { IfErr result (λ refusal. refusal ≡ Memory) }
    {
        let entry = &self.journal[k as usize];
        let command = entry.command.copy(*self.journal.allocator())?;
        Ok(Answer::EntryIs(Entry {
            seat: entry.seat,
            command,
        }))
    }

    // A change, whole or not at all: its place in the journal comes first.
    fn change(&mut self, seat: u16, command: Command) -> Result<Answer, Refusal>
        requires acceptable { IsAcceptable self.old (entry_of seat command) }
        ensures changed { Changes self.old (entry_of seat command) result self.new }
        ensures sound { IsSound self.new }
        ensures few { length self.new.journal ≤ most_entries }
    {
        let count = self.journal.len();
        self.journal.reserve(1)?;
        self.books.enact(&command, &mut self.stepper);
        self.journal.push_reserved(Entry { seat, command });
        Ok(Answer::Taken(count as u32))
    }
}
