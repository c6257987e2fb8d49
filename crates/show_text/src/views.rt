// The text of SHOW CREATE VIEW (MySQL 8.0 Reference Manual, 13.7.7.13).
ghost use Rattle.std.specs.Prelude.{◌≡◌, ◌++◌, OnOk, IfOk, flat_map, slice_get};
ghost use Rattle.sql_pieces.specs.Pieces.{quoted_name};
ghost use Rattle.show_text.specs.Views.{alias_of, output_text, alias_text, source_text, behind_comma, outputs_text, sources_text, query_text, view_text};

use dd_definitions::{ViewColumn, ViewDef, ViewParts, ViewSource};
use dd_names::Text;
use sql_pieces::push_name;
use std::alloc::{AllocError, Global};

/// The text of SHOW CREATE VIEW.
pub fn show_view(alloc: Global, view: &ViewDef) -> Result<Text, AllocError>
    ensures { IfOk result (λ text. text ≡ view_text view.now) }
{
    let parts = view.parts();
    let mut out = Text::of(
        alloc,
        "CREATE ALGORITHM=UNDEFINED DEFINER=`root`@`localhost` SQL SECURITY DEFINER VIEW ",
    )?;
    push_name(&mut out, &parts.name.name)?;
    out.push_str(" AS ")?;
    push_query(&mut out, parts)?;
    Ok(out)
}

/// The query of a view, from `select` on, as SHOW CREATE VIEW has it.
pub fn view_query(alloc: Global, view: &ViewDef) -> Result<Text, AllocError>
    ensures { IfOk result (λ text. text ≡ query_text view.now) }
{
    let mut out = Text::of(alloc, "")?;
    push_query(&mut out, view.parts())?;
    Ok(out)
}

fn push_query(out: &mut Text, parts: &ViewParts) -> Result<(), AllocError>
    ensures { OnOk result (out.new ≡ out.old ++ query_text parts.now) }
{
    let sources = parts.sources.as_slice();
    out.push_str("select ")?;
    push_outputs(out, sources, parts.outputs.as_slice())?;
    out.push_str(" from ")?;
    push_sources(out, sources)
}

fn push_outputs(
    out: &mut Text,
    sources: &[ViewSource],
    outputs: &[ViewColumn],
) -> Result<(), AllocError>
    ensures { OnOk result (out.new ≡ out.old ++ outputs_text sources.now outputs.now) }
{
    match outputs {
        [] => Ok(()),
        [first, others @ ..] => {
            push_output(out, sources, first)?;
            push_more_outputs(out, sources, others)
        }
    }
}

fn push_more_outputs(
    out: &mut Text,
    sources: &[ViewSource],
    outputs: &[ViewColumn],
) -> Result<(), AllocError>
    ensures { OnOk result (out.new ≡ out.old ++ flat_map (λ o. behind_comma (output_text sources.now o)) outputs.now) }
{
    'outputs: for output in outputs {
        out.push_str(",")?;
        push_output(out, sources, output)?;
    }
    Ok(())
}

fn push_output(
    out: &mut Text,
    sources: &[ViewSource],
    output: &ViewColumn,
) -> Result<(), AllocError>
    ensures { OnOk result (out.new ≡ out.old ++ output_text sources.now output.now) }
{
    push_alias(out, sources, output.source)?;
    out.push_str(".")?;
    push_name(out, &output.column)?;
    out.push_str(" AS ")?;
    push_name(out, &output.output)
}

/// The name of a source in the query.
fn push_alias(out: &mut Text, sources: &[ViewSource], place: u32) -> Result<(), AllocError>
    ensures { OnOk result (out.new ≡ out.old ++ quoted_name (alias_of (slice_get sources.now place))) }
{
    match sources.get(place as usize) {
        None => out.push_str("``"),
        Some(source) => push_name(out, &source.alias),
    }
}

fn push_sources(out: &mut Text, sources: &[ViewSource]) -> Result<(), AllocError>
    ensures { OnOk result (out.new ≡ out.old ++ sources_text sources.now) }
{
    match sources {
        [] => Ok(()),
        [first, others @ ..] => {
            push_source(out, first)?;
            push_more_sources(out, others)
        }
    }
}

fn push_more_sources(out: &mut Text, sources: &[ViewSource]) -> Result<(), AllocError>
    ensures { OnOk result (out.new ≡ out.old ++ flat_map (λ s. behind_comma (source_text s)) sources.now) }
{
    'sources: for source in sources {
        out.push_str(",")?;
        push_source(out, source)?;
    }
    Ok(())
}

fn push_source(out: &mut Text, source: &ViewSource) -> Result<(), AllocError>
    ensures { OnOk result (out.new ≡ out.old ++ source_text source.now) }
{
    push_name(out, &source.object.schema)?;
    out.push_str(".")?;
    push_name(out, &source.object.name)?;
    push_other_alias(out, source)
}

fn push_other_alias(out: &mut Text, source: &ViewSource) -> Result<(), AllocError>
    ensures { OnOk result (out.new ≡ out.old ++ alias_text source.now) }
{
    if source.alias == source.object.name {
        return Ok(());
    }
    out.push_str(" ")?;
    push_name(out, &source.alias)
}
