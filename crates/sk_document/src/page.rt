//! A page for reviewers: what is told of filters, as HTML without scripts.
ghost use Rattle.std.specs.Prelude.{◌≡◌, ◌++◌, IfOk, OnOk};
ghost use Rattle.std.specs.Option.{option_map};
ghost use Rattle.sk_document.specs.Page.{answer_documents, change_document, change_links, changes_shown, conditional_link, document_shown, documents_section, group_links, head_text, header, legend_text, link, links, main, navigation, other_links, page_begun, page_ended, review_page, sections, skip_text};

use crate::arches::arches_document;
use crate::comparison::comparison_document;
use crate::html::Html;
use crate::lint::lint_document;
use crate::page_arches::add_arches;
use crate::page_changes::add_changes;
use crate::page_lint::add_lint;
use crate::page_parts::begin_section;
use crate::page_rows::add_groups;
use crate::when::when_document;
use sk_survey::Told;
use sk_when::{Comparison, ConditionalRow, Linted, Names, Relation, Remarks};
use std::alloc::{AllocError, Global};

/// What stands before the title of each page. The style follows the reader's choice of a dark scheme, and serves print.
const HEAD: &str = "<!DOCTYPE html>
<html lang=\"en\">
<head>
<meta charset=\"utf-8\">
<meta name=\"viewport\" content=\"width=device-width, initial-scale=1\">
<style>
:root { color-scheme: light dark; --line: #c4c9d0; --quiet: #f2f4f7; --link: #0b57b0 }
@media (prefers-color-scheme: dark) { :root { --line: #4b525c; --quiet: #23272e; --link: #8ab8ff } }
body { margin: 0 auto; max-width: 80rem; padding: 1rem; font: 1rem/1.5 system-ui, sans-serif }
h1 { font-size: 1.5rem; overflow-wrap: anywhere }
h2 { font-size: 1.25rem; margin: 2.5rem 0 .5rem }
a { color: var(--link) }
a:focus-visible, summary:focus-visible { outline: 3px solid var(--link); outline-offset: 2px }
.skip { position: absolute; left: -100rem }
.skip:focus { position: static }
nav ul { display: flex; flex-wrap: wrap; gap: .25rem 1.25rem; padding: 0; list-style: none }
table { border-collapse: collapse; width: 100% }
caption { text-align: left; padding: .25rem 0 .5rem }
th, td { border: 1px solid var(--line); padding: .3rem .6rem; text-align: left; vertical-align: top }
thead th { background: var(--quiet) }
tbody th { font-weight: normal; width: 12rem; overflow-wrap: anywhere }
td > b { white-space: nowrap }
:target > th, :target > tr > th { background: var(--quiet); font-weight: bold }
td ul { margin: 0; padding: 0; list-style: none }
td li + li { border-top: 1px solid var(--line) }
code, pre { font: .875em/1.5 ui-monospace, monospace; overflow-wrap: anywhere }
pre { white-space: pre-wrap; margin: .25rem 0 }
details { border: 1px solid var(--line); padding: .5rem .75rem; margin: .5rem 0 }
td p { margin: .25rem 0 0 }
summary { cursor: pointer }
@media (max-width: 40rem) { table { font-size: .875rem } tbody th { width: 6.5rem } th, td { padding: .25rem .35rem } td > b { white-space: normal } }
@media print { nav, .skip { display: none } body { max-width: none; padding: 0 } tr { break-inside: avoid } }
</style>
";

/// What stands between the title and the heading.
const SKIP: &str = "</head>
<body>
<a class=\"skip\" href=\"#answers\">Skip to the answers</a>
";

/// How the link to the calls whose arguments decide is named.
const CONDITIONAL: &str = "Under conditions";

/// What the words of each page mean.
const LEGEND: &str =
    "<p>What the filters answer to calls of x86-64. Linux performs a call where the verdict is allow or log, and by no \
other one. By trace and by user_notif another process decides; here they count as refusals.</p>
";

/// A page with this title: what changed, where that is to be told, and then what is told of filters.
pub fn review_page<R: Remarks>(
    alloc: Global,
    title: &str,
    names: Names,
    remarks: &R,
    compared: Option<&Comparison>,
    rows: &[ConditionalRow],
    told: &Told,
    linted: &Linted,
) -> Result<Vec<u8>, AllocError>
    ensures page { IfOk result (λ text. text.items ≡
        review_page title.now names (R.remark remarks.now) (option_map (λ it. it.now) compared.entry) rows.now told.now linted.now) }
{
    let mut page = Html::new(alloc);
    add_page(
        &mut page, alloc, title, names, remarks, compared, rows, told, linted,
    )?;
    Ok(page.finished())
}

#[tactic(auto, unfolding(crate::specs::Page::review_page))]
fn add_page<R: Remarks>(
    to: &mut Html,
    alloc: Global,
    title: &str,
    names: Names,
    remarks: &R,
    compared: Option<&Comparison>,
    rows: &[ConditionalRow],
    told: &Told,
    linted: &Linted,
) -> Result<(), AllocError>
    ensures added { OnOk result (to.new ≡ to.old ++
        review_page title.now names (R.remark remarks.now) (option_map (λ it. it.now) compared.entry) rows.now told.now linted.now) }
{
    begin_page(to, title)?;
    add_header(to, title, compared.is_some())?;
    add_main(to, alloc, names, remarks, compared, rows, told, linted)?;
    end_page(to)
}

#[tactic(auto, unfolding(crate::specs::Page::page_begun))]
fn begin_page(to: &mut Html, title: &str) -> Result<(), AllocError>
    ensures added { OnOk result (to.new ≡ to.old ++ page_begun title.now) }
{
    add_head_text(to)?;
    to.shown_in("title", title.as_bytes())?;
    add_skip_text(to)
}

#[tactic(auto, unfolding(crate::specs::Page::main))]
fn add_main<R: Remarks>(
    to: &mut Html,
    alloc: Global,
    names: Names,
    remarks: &R,
    compared: Option<&Comparison>,
    rows: &[ConditionalRow],
    told: &Told,
    linted: &Linted,
) -> Result<(), AllocError>
    ensures added { OnOk result (to.new ≡ to.old ++
        main names (R.remark remarks.now) (option_map (λ it. it.now) compared.entry) rows.now told.now linted.now) }
{
    to.begin_at("main", "id", "answers")?;
    add_sections(to, alloc, names, remarks, compared, rows, told, linted)?;
    to.end("main")
}

#[tactic(auto, unfolding(crate::specs::Page::header))]
fn add_header(to: &mut Html, title: &str, compares: bool) -> Result<(), AllocError>
    ensures added { OnOk result (to.new ≡ to.old ++ header title.now compares) }
{
    to.begin("header")?;
    to.shown_in("h1", title.as_bytes())?;
    add_legend(to)?;
    add_navigation(to, compares)?;
    to.end("header")
}

#[tactic(auto, unfolding(crate::specs::Page::navigation))]
fn add_navigation(to: &mut Html, compares: bool) -> Result<(), AllocError>
    ensures added { OnOk result (to.new ≡ to.old ++ navigation compares) }
{
    to.begin_at("nav", "aria-label", "Sections")?;
    to.begin("ul")?;
    add_links(to, compares)?;
    to.end("ul")?;
    to.end("nav")
}

#[tactic(auto, unfolding(crate::specs::Page::links))]
fn add_links(to: &mut Html, compares: bool) -> Result<(), AllocError>
    ensures added { OnOk result (to.new ≡ to.old ++ links compares) }
{
    add_change_links(to, compares)?;
    add_group_links(to)?;
    add_other_links(to)
}

fn add_change_links(to: &mut Html, compares: bool) -> Result<(), AllocError>
    ensures added { OnOk result (to.new ≡ to.old ++ change_links compares) }
{
    if !compares {
        return Ok(());
    }
    add_link(to, "looser", "Looser")?;
    add_link(to, "stricter", "Stricter")?;
    add_link(to, "other", "Other changes")
}

#[tactic(auto, unfolding(crate::specs::Page::group_links))]
fn add_group_links(to: &mut Html) -> Result<(), AllocError>
    ensures added { OnOk result (to.new ≡ to.old ++ group_links) }
{
    add_link(to, "refused", "Refused")?;
    add_conditional_link(to)?;
    add_link(to, "allowed", "Allowed")
}

#[tactic(auto, unfolding(crate::specs::Page::other_links))]
fn add_other_links(to: &mut Html) -> Result<(), AllocError>
    ensures added { OnOk result (to.new ≡ to.old ++ other_links) }
{
    add_link(to, "arches", "Architectures")?;
    add_link(to, "lint", "Unread bits")?;
    add_link(to, "documents", "Documents")
}

#[tactic(auto, unfolding(crate::specs::Page::link))]
fn add_link(to: &mut Html, id: &str, name: &str) -> Result<(), AllocError>
    ensures added { OnOk result (to.new ≡ to.old ++ link id.now name.now) }
{
    let mut text = to.text();
    text.push_str("#")?;
    text.push_str(id)?;
    to.begin("li")?;
    to.element_at("a", "href", text.as_str(), name)?;
    to.end("li")
}

#[tactic(auto, unfolding(crate::specs::Page::sections))]
fn add_sections<R: Remarks>(
    to: &mut Html,
    alloc: Global,
    names: Names,
    remarks: &R,
    compared: Option<&Comparison>,
    rows: &[ConditionalRow],
    told: &Told,
    linted: &Linted,
) -> Result<(), AllocError>
    ensures added { OnOk result (to.new ≡ to.old ++
        sections names (R.remark remarks.now) (option_map (λ it. it.now) compared.entry) rows.now told.now linted.now) }
{
    add_compared(to, names, compared)?;
    add_groups(to, names, rows)?;
    add_arches(to, told)?;
    add_lint(to, names.naming, remarks, &linted.pieces)?;
    add_all_documents(to, alloc, names, remarks, compared, rows, told, linted)
}

#[tactic(auto, unfolding(crate::specs::Page::documents_section))]
fn add_all_documents<R: Remarks>(
    to: &mut Html,
    alloc: Global,
    names: Names,
    remarks: &R,
    compared: Option<&Comparison>,
    rows: &[ConditionalRow],
    told: &Told,
    linted: &Linted,
) -> Result<(), AllocError>
    ensures added { OnOk result (to.new ≡ to.old ++
        documents_section names (R.remark remarks.now) (option_map (λ it. it.now) compared.entry) rows.now told.now linted.now) }
{
    begin_section(to, "documents", "Documents")?;
    add_change_document(to, alloc, names, compared)?;
    add_documents(to, alloc, names, remarks, rows, told, linted)?;
    to.end("section")
}

fn add_compared(
    to: &mut Html,
    names: Names,
    compared: Option<&Comparison>,
) -> Result<(), AllocError>
    ensures added { OnOk result (to.new ≡ to.old ++ changes_shown names (option_map (λ it. it.now) compared.entry)) }
{
    match compared {
        Some(it) => add_changes(to, names, &it.pieces),
        None => Ok(()),
    }
}

fn add_change_document(
    to: &mut Html,
    alloc: Global,
    names: Names,
    compared: Option<&Comparison>,
) -> Result<(), AllocError>
    ensures added { OnOk result (to.new ≡ to.old ++ change_document names (option_map (λ it. it.now) compared.entry)) }
{
    match compared {
        Some(it) => {
            let text = comparison_document(
                alloc,
                "diff",
                names,
                Relation::Same,
                it.finding,
                &it.pieces,
            )?;
            add_document(to, "ask diff --json", &text)
        }
        None => Ok(()),
    }
}

#[tactic(auto, unfolding(crate::specs::Page::answer_documents))]
fn add_documents<R: Remarks>(
    to: &mut Html,
    alloc: Global,
    names: Names,
    remarks: &R,
    rows: &[ConditionalRow],
    told: &Told,
    linted: &Linted,
) -> Result<(), AllocError>
    ensures added { OnOk result (to.new ≡ to.old ++ answer_documents names (R.remark remarks.now) rows.now told.now linted.now) }
{
    let text = when_document(alloc, names, rows)?;
    add_document(to, "ask when --json", &text)?;
    let text = arches_document(alloc, told)?;
    add_document(to, "ask arches --json", &text)?;
    let text = lint_document(alloc, names.naming, remarks, linted.finding, &linted.pieces)?;
    add_document(to, "ask lint --json", &text)
}

#[tactic(auto, unfolding(crate::specs::Page::document_shown))]
fn add_document(to: &mut Html, command: &str, text: &[u8]) -> Result<(), AllocError>
    ensures added { OnOk result (to.new ≡ to.old ++ document_shown command.now text.now) }
{
    to.begin("details")?;
    to.element("summary", command)?;
    to.shown_in("pre", text)?;
    to.end("details")
}

#[tactic(auto, unfolding(crate::specs::Page::conditional_link))]
fn add_conditional_link(to: &mut Html) -> Result<(), AllocError>
    ensures added { OnOk result (to.new ≡ to.old ++ conditional_link) }
{
    add_link(to, "conditional", CONDITIONAL)
}

#[tactic(auto, unfolding(crate::specs::Page::head_text))]
fn add_head_text(to: &mut Html) -> Result<(), AllocError>
    ensures added { OnOk result (to.new ≡ to.old ++ head_text) }
{
    to.markup(HEAD)
}

#[tactic(auto, unfolding(crate::specs::Page::skip_text))]
fn add_skip_text(to: &mut Html) -> Result<(), AllocError>
    ensures added { OnOk result (to.new ≡ to.old ++ skip_text) }
{
    to.markup(SKIP)
}

#[tactic(auto, unfolding(crate::specs::Page::page_ended))]
fn end_page(to: &mut Html) -> Result<(), AllocError>
    ensures added { OnOk result (to.new ≡ to.old ++ page_ended) }
{
    to.markup("</body>\n</html>\n")
}

#[tactic(auto, unfolding(crate::specs::Page::legend_text))]
fn add_legend(to: &mut Html) -> Result<(), AllocError>
    ensures added { OnOk result (to.new ≡ to.old ++ legend_text) }
{
    to.markup(LEGEND)
}
