//! Reads the fields before the cells, one by one from the front.

ghost use Rattle.std.specs.Prelude.{◌≡◌, ◌≤◌, ◌<◌, ◌+◌, ◌*◌, ◌&&◌, true, nat_le, ℕ, List, [], Some, None, Result, Ok, Err, IfOk, if◌then◌else◌, length, bytes_eq};
ghost use Rattle.gas_terms.specs.Cells.{Extent, lies_within};
ghost use Rattle.gas_terms.specs.Gas.{most_ports};
ghost use Rattle.gas_terms.specs.Commands.{is_tick, is_period};
ghost use Rattle.gas_ledger.specs.PortLists.{PortLists, no_ports};
ghost use Rattle.gas_snapshot.specs.declared.version.Version.TheVariants.{One, Two};
ghost use Rattle.gas_snapshot.specs.declared.fault.SnapFault.{SnapFault};
ghost use Rattle.gas_snapshot.specs.declared.fault.SnapFault.TheVariants.{Magic, Size as SizeFault, Tick as TickFault, Port as PortFault};
ghost use Rattle.gas_snapshot.specs.Spelling.{magic};
ghost use Rattle.gas_snapshot.specs.Reading.{IsAsRead, magic_at, size_at, tick_at, counts_at, greatest_side, is_size_of, field_at, number, size_in, tick_in, are_few, counts_in, area_in, source_in, drain_at, source_at, and_one, many, ports_at, head_with, head_at};

use crate::fault::SnapFault;
use crate::version::{MOST_OLD_SIDE, Version};
use gas_ledger::{Port, Ports, Source};
use gas_terms::{MOST_PORTS, MOST_SIDE, Rect, Size, Tick};

const MAGIC_ONE: [u8; 8] = *b"HPPGAS1\n";

const MAGIC_TWO: [u8; 8] = *b"HPPGAS2\n";

/// The fields before the ports.
#[derive(Clone, Copy, Debug, PartialEq, Eq)]
pub struct Head {
    pub version: Version,
    pub size: Size,
    pub tick: Tick,
}

fn field(n: usize, bytes: &[u8]) -> Result<(&[u8], &[u8]), SnapFault>
    ensures field { IsAsRead (λ x. (x.0.now, x.1.now)) result (field_at n bytes.now) }
    ensures len { IfOk result (λ x. length x.0.now ≡ n) }
{
    if bytes.len() < n {
        return Err(SnapFault::Short);
    }
    Ok(bytes.split_at(n))
}

// The k-th number of a field.
fn number(k: usize, field: &[u8]) -> u16
    requires { 2 * k + 2 ≤ length field.now }
    ensures { result ≡ number k field.now }
{
    u16::from_be_bytes([field[2 * k], field[2 * k + 1]])
}

fn version(field: &[u8]) -> Result<Version, SnapFault>
    ensures { result ≡
        (if bytes_eq field.now (magic One) then Ok One
        else if bytes_eq field.now (magic Two) then Ok Two
        else Err Magic) }
{
    if field == MAGIC_ONE.as_slice() {
        return Ok(Version::One);
    }
    if field == MAGIC_TWO.as_slice() {
        return Ok(Version::Two);
    }
    Err(SnapFault::Magic)
}

// Whether the version has lattices of that size.
fn has_size(version: Version, size: Size) -> bool
    ensures { let most = greatest_side version in
        result ≡ (nat_le size.width most && nat_le size.height most) }
{
    let most = match version {
        Version::One => MOST_OLD_SIDE,
        Version::Two => MOST_SIDE,
    };
    size.width() as u32 <= most && size.height() as u32 <= most
}

fn size(version: Version, field: &[u8]) -> Result<Size, SnapFault>
    requires { length field.now ≡ 4 }
    ensures { let size = size_in field.now in
        result ≡ (if is_size_of version size then Ok size else Err SizeFault) }
{
    match Size::new(number(0, field) as u32, number(1, field) as u32) {
        Some(size) if has_size(version, size) => Ok(size),
        _ => Err(SnapFault::Size),
    }
}

fn tick(field: &[u8]) -> Result<Tick, SnapFault>
    requires { length field.now ≡ 8 }
    ensures { let tick = tick_in field.now in
        result ≡ (if is_tick tick then Ok tick else Err TickFault) }
{
    let number = i64::from_be_bytes([
        field[0], field[1], field[2], field[3], field[4], field[5], field[6], field[7],
    ]);
    match Tick::new(number) {
        Some(tick) => Ok(tick),
        None => Err(SnapFault::Tick),
    }
}

// How many drains and how many sources.
fn counts(field: &[u8]) -> Result<(u8, u8), SnapFault>
    requires { length field.now ≡ 2 }
    ensures { let counts = counts_in field.now in
        result ≡ (if are_few counts then Ok counts else Err PortFault) }
{
    let (drains, sources) = (field[0], field[1]);
    if drains as usize > MOST_PORTS || sources as usize > MOST_PORTS {
        return Err(SnapFault::Port);
    }
    Ok((drains, sources))
}

// The rectangle of a field's first four numbers.
fn area(size: Size, field: &[u8]) -> Option<Rect>
    requires { 8 ≤ length field.now }
    ensures { let area = area_in field.now in
        result ≡ (if lies_within size area then Some area else None) }
{
    let (x, y) = (number(0, field) as u32, number(1, field) as u32);
    let (w, h) = (number(2, field) as u32, number(3, field) as u32);
    Rect::within(size, x, y, w, h)
}

fn source(size: Size, field: &[u8]) -> Result<Source, SnapFault>
    requires { length field.now ≡ 10 }
    ensures { let source = source_in field.now in
        result ≡ (if lies_within size source.area && is_period source.period then Ok source
        else Err PortFault) }
{
    let period = number(4, field);
    match area(size, field) {
        Some(area) if period > 0 => Ok(Source { area, period }),
        _ => Err(SnapFault::Port),
    }
}

// What the field of a port says: of a drain its area, of a source also its period. `these` are the ports of its kind, and
// `without` takes them away.
trait PortField {
    ghost one_at: { Extent → List ℕ → Result (Self × List ℕ) SnapFault };

    ghost these: { PortLists → List Self };

    ghost without: { PortLists → PortLists };

    // Reads the next field, and adds its port.
    fn add<'a>(size: Size, ports: &mut Ports, bytes: &'a [u8]) -> Result<&'a [u8], SnapFault>
        requires { length (these ports.old) < most_ports }
        ensures these { IsAsRead (λ x. (these ports.new, x.now)) result
            (and_one (these ports.old) (one_at size bytes.now)) }
        ensures others { without ports.new ≡ without ports.old };
}

impl PortField for Rect {
    ghost one_at = { drain_at };

    ghost these = { λ ports. ports.drains };

    ghost without = { λ ports. record ports { drains = [] } };

    #[tactic(auto, unfolding(crate::specs::Reading::drain_at))]
    fn add<'a>(size: Size, ports: &mut Ports, bytes: &'a [u8]) -> Result<&'a [u8], SnapFault> {
        let (drain, rest) = field(8, bytes)?;
        let Some(area) = area(size, drain) else {
            return Err(SnapFault::Port);
        };
        ports.push(Port::Drain(area));
        Ok(rest)
    }
}

impl PortField for Source {
    ghost one_at = { source_at };

    ghost these = { λ ports. ports.sources };

    ghost without = { λ ports. record ports { sources = [] } };

    #[tactic(auto, unfolding(crate::specs::Reading::source_at))]
    fn add<'a>(size: Size, ports: &mut Ports, bytes: &'a [u8]) -> Result<&'a [u8], SnapFault> {
        let (field, rest) = field(10, bytes)?;
        let Source { area, period } = source(size, field)?;
        ports.push(Port::Source(area, period));
        Ok(rest)
    }
}

#[tactic(auto, using(crate::proofs::Loops::goes_on, crate::proofs::Loops::one_longer), unfolding(crate::specs::Reading::many))]
fn add_each<'a, P: PortField>(
    size: Size,
    count: u8,
    ports: &mut Ports,
    bytes: &'a [u8],
) -> Result<&'a [u8], SnapFault>
    requires few { count ≤ most_ports }
    requires none { P.these ports.old ≡ [] }
    ensures these { IsAsRead (λ x. (P.these ports.new, x.now)) result
        (many (P.one_at size) count bytes.now) }
    ensures others { P.without ports.new ≡ P.without ports.old }
{
    let mut rest = bytes;
    'fields: for _ in 0..count {
        rest = P::add(size, ports, rest)?;
    }
    Ok(rest)
}

#[tactic(auto, unfolding(crate::specs::Reading::ports_at))]
fn add_ports<'a>(
    size: Size,
    counts: (u8, u8),
    ports: &mut Ports,
    bytes: &'a [u8],
) -> Result<&'a [u8], SnapFault>
    requires drains { counts.0 ≤ most_ports }
    requires sources { counts.1 ≤ most_ports }
    requires none { ports.old ≡ no_ports }
    ensures { IsAsRead (λ x. (ports.new, x.now)) result (ports_at size counts bytes.now) }
{
    let rest = add_each::<Rect>(size, counts.0, ports, bytes)?;
    add_each::<Source>(size, counts.1, ports, rest)
}

#[tactic(auto, unfolding(crate::specs::Reading::magic_at))]
fn read_version(bytes: &[u8]) -> Result<(Version, &[u8]), SnapFault>
    ensures { IsAsRead (λ x. (x.0, x.1.now)) result (magic_at bytes.now) }
{
    let (magic, rest) = field(8, bytes)?;
    Ok((version(magic)?, rest))
}

#[tactic(auto, unfolding(crate::specs::Reading::size_at))]
fn read_size(version: Version, bytes: &[u8]) -> Result<(Size, &[u8]), SnapFault>
    ensures { IsAsRead (λ x. (x.0, x.1.now)) result (size_at version bytes.now) }
{
    let (sides, rest) = field(4, bytes)?;
    Ok((size(version, sides)?, rest))
}

#[tactic(auto, unfolding(crate::specs::Reading::tick_at))]
fn read_tick(bytes: &[u8]) -> Result<(Tick, &[u8]), SnapFault>
    ensures { IsAsRead (λ x. (x.0, x.1.now)) result (tick_at bytes.now) }
{
    let (moment, rest) = field(8, bytes)?;
    Ok((tick(moment)?, rest))
}

#[tactic(auto, unfolding(crate::specs::Reading::counts_at))]
fn read_counts(bytes: &[u8]) -> Result<((u8, u8), &[u8]), SnapFault>
    ensures counts { IsAsRead (λ x. (x.0, x.1.now)) result (counts_at bytes.now) }
    ensures few { IfOk result (λ x. are_few x.0 ≡ true) }
{
    let (numbers, rest) = field(2, bytes)?;
    Ok((counts(numbers)?, rest))
}

/// Reads the fields before the cells, and returns the bytes after them. The ports are added to those there are.
#[tactic(auto, unfolding(crate::specs::Reading::head_at))]
pub fn read_head<'a>(bytes: &'a [u8], ports: &mut Ports) -> Result<(Head, &'a [u8]), SnapFault>
    requires { ports.old ≡ no_ports }
    ensures { IsAsRead (λ x. (head_with x.0 ports.new, x.1.now)) result (head_at bytes.now) }
{
    let (version, rest) = read_version(bytes)?;
    let (size, rest) = match read_size(version, rest) {
        Ok(read) => read,
        Err(fault) => return Err(fault),
    };
    let (tick, rest) = match read_tick(rest) {
        Ok(read) => read,
        Err(fault) => return Err(fault),
    };
    let (counts, rest) = read_counts(rest)?;
    let rest = add_ports(size, counts, ports, rest)?;
    let head = Head {
        version,
        size,
        tick,
    };
    Ok((head, rest))
}
