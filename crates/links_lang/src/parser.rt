//! The text of links.
ghost use Rattle.std.specs.Prelude.{◌≡◌, ◌++◌, IfOk, IfErr, OnOk, option_to_list};
ghost use Rattle.pair_spec.specs.Links.{IsLinksText};
ghost use Rattle.notes_lang.specs.Parsing.{layout_names};
ghost use Rattle.links_lang.specs.Views.{AreLinksOf, links_of};
ghost use Rattle.links_lang.specs.Telling.{AreRead, IsRefused};

use crate::faults::LinksError;
use crate::lines::judge;
use crate::links::Link;
use crate::texts::first_line;
use start_value::Layout;
use std::alloc::{AllocError, Global};

/// Adds the link of a line, if it says one. The error is out of memory.
fn add(links: &mut Vec<Link>, said: Option<Link>) -> Result<(), AllocError>
    ensures { OnOk result (links.new.items ≡ links.old.items ++ option_to_list said) }
{
    match said {
        Some(link) => links.push(link)?,
        None => {}
    }
    Ok(())
}

/// The links of a text, or the first line that is refused.
fn read_links(
    alloc: Global,
    bytes: &[u8],
    first: Layout,
    second: Layout,
) -> Result<Result<Vec<Link>, LinksError>, AllocError>
    ensures { IfOk result (λ r. AreRead first second bytes.now r) }
{
    let mut links = Vec::new(alloc);
    let mut rest = bytes;
    let mut line = 1u32;
    while !rest.is_empty() {
        let (text, others) = first_line(rest);
        let said = match judge(alloc, first, second, line, text)? {
            Ok(said) => said,
            Err(fault) => return Ok(Err(LinksError::Refused { line, fault })),
        };
        add(&mut links, said)?;
        rest = others;
        line += 1;
    }
    Ok(Ok(links))
}

/// The links that a text says between the machines of two layouts, in the order of the lines. They have the numbers of their lines, at most 256, and their
/// ranges 1 to 256 bytes; what they name, the machines have.
///
/// # Errors
///
/// `Refused` tells the first line that is refused, with the first of its faults; `Memory` is out of memory.
pub fn parse_links(
    alloc: Global,
    bytes: &[u8],
    first: Layout,
    second: Layout,
) -> Result<Vec<Link>, LinksError>
    ensures said { IfOk result (λ v. IsLinksText (layout_names first) (layout_names second) bytes.now (links_of v.items)) }
    ensures forms { IfOk result (λ v. AreLinksOf first second v.items) }
    ensures refused { IfErr result (λ error. IsRefused first second bytes.now error) }
{
    match read_links(alloc, bytes, first, second) {
        Ok(read) => read,
        Err(_) => Err(LinksError::Memory),
    }
}
