//! Writes the fields before the cells to a page on the stack.

ghost use Rattle.std.specs.Prelude.{◌≡◌, ◌≤◌, ◌+◌, ◌*◌, ◌++◌, ◌∷◌, [], length};
ghost use Rattle.std.specs.Int.{w16, to_be_bytes};
ghost use Rattle.std.specs.List.{flat_map};
ghost use Rattle.byte_page.specs.Pages.{page_limit};
ghost use Rattle.gas_terms.specs.Cells.{extent};
ghost use Rattle.gas_snapshot.specs.declared.version.Version.TheVariants.{Two};
ghost use Rattle.gas_snapshot.specs.Spelling.{magic, sides, moment, drain, source, head};

use byte_page::BytePage;
use byteorder::{BigEndian, ByteOrder};
use gas_ledger::{Gas, Source};
use gas_terms::{Rect, Tick};

fn put_u16(page: &mut BytePage, n: u16)
    requires { length page.old + 2 ≤ page_limit }
    ensures bytes { page.new ≡ page.old ++ to_be_bytes w16 n }
    ensures len { length page.new ≡ length page.old + 2 }
{
    let mut bytes = [0; 2];
    BigEndian::write_u16(&mut bytes, n);
    page.push(&bytes);
}

#[tactic(auto, unfolding(crate::specs::Spelling::moment))]
fn put_tick(page: &mut BytePage, tick: Tick)
    requires { length page.old + 8 ≤ page_limit }
    ensures bytes { page.new ≡ page.old ++ moment tick }
    ensures len { length page.new ≡ length page.old + 8 }
{
    let mut bytes = [0; 8];
    BigEndian::write_i64(&mut bytes, tick.get());
    page.push(&bytes);
}

fn put_area(page: &mut BytePage, area: Rect)
    requires { length page.old + 8 ≤ page_limit }
    ensures bytes { page.new ≡ page.old ++ drain area }
    ensures len { length page.new ≡ length page.old + 8 }
{
    put_u16(page, area.x());
    put_u16(page, area.y());
    put_u16(page, area.w());
    put_u16(page, area.h());
}

fn put_drains(page: &mut BytePage, drains: &[Rect])
    requires { length page.old + 8 * length drains.now ≤ page_limit }
    ensures bytes { page.new ≡ page.old ++ flat_map drain drains.now }
    ensures len { length page.new ≡ length page.old + 8 * length drains.now }
{
    for area in drains {
        put_area(page, *area);
    }
}

fn put_sources(page: &mut BytePage, sources: &[Source])
    requires { length page.old + 10 * length sources.now ≤ page_limit }
    ensures bytes { page.new ≡ page.old ++ flat_map source sources.now }
    ensures len { length page.new ≡ length page.old + 10 * length sources.now }
{
    for source in sources {
        let Source { area, period } = *source;
        put_area(page, area);
        put_u16(page, period);
    }
}

/// The bytes before the cells in the gas's spelling.
pub fn head_of(gas: &Gas) -> BytePage
    ensures { result ≡ head Two gas.now }
{
    let size = gas.size();
    let drains = gas.ports().drains();
    let sources = gas.ports().sources();
    let mut page = BytePage::empty();
    page.push(b"HPPGAS2\n");
    put_u16(&mut page, size.width());
    put_u16(&mut page, size.height());
    put_tick(&mut page, gas.tick());
    page.push(&[drains.len() as u8, sources.len() as u8]);
    put_drains(&mut page, drains);
    put_sources(&mut page, sources);
    page
}
