ghost use Rattle.std.specs.Prelude.{◌≡◌, ◌++◌, codes, IfOk, OnOk};
ghost use Rattle.std.specs.Fmt.{decimal, signed_decimal};
ghost use Rattle.std.specs.List.{join_by, flat_map};
ghost use Rattle.json.specs.Print.{quoted};
ghost use Rattle.client_pool.specs.Text.{spaced, words_line, commits_line, site_line, site_lines, summary_text};

use crate::Plan;
use field_codec::{ListOf, Text};
use itoa::{Buffer, Integer};
use std::alloc::{AllocError, Global};

/// What a site shows at the end of a storm.
#[derive(Debug, Drop)]
pub struct SiteSum {
    /// The values of the eight counters.
    pub counters: [i128; 8],
    /// The names of the clients, in the order of their bytes.
    pub names: ListOf<Text>,
}

/// What a storm comes to.
#[derive(Debug, Drop)]
pub struct Summary {
    /// How many transactions committed.
    pub commits: u64,
    /// What each site shows, from site 1 on.
    pub sites: ListOf<SiteSum>,
}

impl Summary {
    /// The lines of the summary of this plan.
    ///
    /// # Errors
    ///
    /// `AllocError` where memory runs out.
    pub fn text(&self, alloc: Global, plan: &Plan) -> Result<Vec<u8>, AllocError>
        ensures { IfOk result (λ text. text.items ≡ summary_text plan.now self.now) }
    {
        let mut out = Vec::new(alloc);
        put_words(&mut out, plan)?;
        put_commits(&mut out, self.commits)?;
        put_sites(alloc, &mut out, self.sites.as_slice())?;
        Ok(out)
    }
}

/// Adds the bytes.
fn put(out: &mut Vec<u8>, bytes: &[u8]) -> Result<(), AllocError>
    ensures { OnOk result (out.new.items ≡ out.old.items ++ bytes.now) }
{
    out.extend_from_slice(bytes)
}

/// Adds a space and the number.
fn put_spaced(out: &mut Vec<u8>, n: u64) -> Result<(), AllocError>
    ensures { OnOk result (out.new.items ≡ out.old.items ++ spaced n) }
{
    put(out, b" ")?;
    put(out, Buffer::new().format(n).as_bytes())
}

/// Adds the line of the five words.
fn put_words(out: &mut Vec<u8>, plan: &Plan) -> Result<(), AllocError>
    ensures { OnOk result (out.new.items ≡ out.old.items ++ words_line plan.now) }
{
    put(out, b"storm")?;
    put_spaced(out, plan.sites as u64)?;
    put_spaced(out, plan.parts as u64)?;
    put_spaced(out, plan.clients as u64)?;
    put_spaced(out, plan.txns as u64)?;
    put_spaced(out, plan.number)?;
    put(out, b"\n")
}

/// Adds the line of the commits.
fn put_commits(out: &mut Vec<u8>, commits: u64) -> Result<(), AllocError>
    ensures { OnOk result (out.new.items ≡ out.old.items ++ commits_line commits) }
{
    put(out, b"commits")?;
    put_spaced(out, commits)?;
    put(out, b"\n")
}

/// Adds the number.
fn put_signed(out: &mut Vec<u8>, n: i128) -> Result<(), AllocError>
    ensures { OnOk result (out.new.items ≡ out.old.items ++ signed_decimal n) }
{
    put(out, Buffer::new().format(n).as_bytes())
}

/// Adds each of the numbers after a comma.
fn put_more_signed(out: &mut Vec<u8>, numbers: &[i128]) -> Result<(), AllocError>
    ensures { OnOk result (out.new.items ≡ out.old.items ++ flat_map (λ n. codes "," ++ signed_decimal n) numbers.now) }
{
    for n in numbers {
        put(out, b",")?;
        put_signed(out, *n)?;
    }
    Ok(())
}

/// Adds the numbers with a comma between neighbors.
fn put_all_signed(out: &mut Vec<u8>, numbers: &[i128]) -> Result<(), AllocError>
    ensures { OnOk result (out.new.items ≡ out.old.items ++ join_by signed_decimal (codes ",") numbers.now) }
{
    match numbers.split_first() {
        None => Ok(()),
        Some((first, rest)) => {
            put_signed(out, *first)?;
            put_more_signed(out, rest)
        }
    }
}

/// Adds the text as JSON writes it.
fn put_quoted(alloc: Global, out: &mut Vec<u8>, text: &Text) -> Result<(), AllocError>
    ensures { OnOk result (out.new.items ≡ out.old.items ++ quoted text.now) }
{
    let quoted = serde_json::Value::try_from_str(alloc, text.as_str())?.to_string(alloc)?;
    put(out, quoted.as_bytes())
}

/// Adds each of the texts after a comma.
fn put_more_quoted(alloc: Global, out: &mut Vec<u8>, texts: &[Text]) -> Result<(), AllocError>
    ensures { OnOk result (out.new.items ≡ out.old.items ++ flat_map (λ t. codes "," ++ quoted t) texts.now) }
{
    for text in texts {
        put(out, b",")?;
        put_quoted(alloc, out, text)?;
    }
    Ok(())
}

/// Adds the texts with a comma between neighbors.
fn put_all_quoted(alloc: Global, out: &mut Vec<u8>, texts: &[Text]) -> Result<(), AllocError>
    ensures { OnOk result (out.new.items ≡ out.old.items ++ join_by quoted (codes ",") texts.now) }
{
    match texts.split_first() {
        None => Ok(()),
        Some((first, rest)) => {
            put_quoted(alloc, out, first)?;
            put_more_quoted(alloc, out, rest)
        }
    }
}

/// Adds the line of a site.
fn put_site(alloc: Global, out: &mut Vec<u8>, site: u64, sum: &SiteSum) -> Result<(), AllocError>
    ensures { OnOk result (out.new.items ≡ out.old.items ++ site_line site sum.now) }
{
    put(out, b"site")?;
    put_spaced(out, site)?;
    put(out, b" [")?;
    put_all_signed(out, &sum.counters)?;
    put(out, b"] [")?;
    put_all_quoted(alloc, out, sum.names.as_slice())?;
    put(out, b"]\n")
}

/// Adds a line for each site, from site 1 on.
fn put_sites(alloc: Global, out: &mut Vec<u8>, sums: &[SiteSum]) -> Result<(), AllocError>
    ensures { OnOk result (out.new.items ≡ out.old.items ++ site_lines 1 sums.now) }
{
    for (i, sum) in sums.iter().enumerate() {
        put_site(alloc, out, i as u64 + 1, sum)?;
    }
    Ok(())
}
