//! The maps of the texts of all processes of a design.
ghost use Rattle.std.specs.Prelude.{◌≡◌, IfOk, map};
ghost use Rattle.vs_maps.specs.Reaches.{chart_of};
ghost use Rattle.vs_claims.specs.Facts.{AreCharts, bodies};

use std::alloc::{AllocError, Global};
use vs_design::Design;
use vs_maps::Tables;
use vs_process::{Code, TextMap, compile};

/// The flat codes of the processes of a design, in design order.
pub fn codes<'a>(alloc: Global, design: &'a Design) -> Result<Vec<Code<'a>>, AllocError>
    ensures { IfOk result (λ codes. codes.items ≡ bodies design.entry.now.processes) }
{
    let mut codes = Vec::new(alloc);
    for p in design.processes() {
        codes.push(compile(alloc, &p.body)?)?;
    }
    Ok(codes)
}

/// The maps of the processes of a design, by their codes.
pub fn texts<'a>(
    alloc: Global,
    design: &Design,
    codes: &'a [Code<'a>],
) -> Result<Vec<TextMap<'a>>, AllocError>
    requires { codes.now ≡ bodies design.now.processes }
    ensures { IfOk result (λ texts. AreCharts design.now (map chart_of texts.items)) }
{
    design.is_well_formed();
    let mut texts = Vec::new(alloc);
    for code in codes {
        texts.push(TextMap::of(alloc, code)?)?;
    }
    Ok(texts)
}

/// The tables of the processes of a design, by their maps.
pub fn tables<'a>(
    alloc: Global,
    design: &Design,
    texts: &'a [TextMap<'a>],
) -> Result<Vec<Tables<'a>>, AllocError>
    requires { AreCharts design.now (map chart_of texts.now) }
    ensures are { IfOk result (λ tables. tables.items ≡ map chart_of texts.entry.now) }
    ensures maps { IfOk result (λ tables. AreCharts design.now tables.items) }
{
    let mut tables = Vec::new(alloc);
    for text in texts {
        tables.push(Tables::new(alloc, text)?)?;
    }
    Ok(tables)
}
