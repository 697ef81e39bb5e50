//! `ask page`: how its pages begin and end, the parts of them that tell of a call, and where there is none.
use crate::ends::run;
use std::str;
use std::test::Fail;

/// The words, and what stands in the page once.
const PARTS: &[(&str, &str)] = &[
    ("page all", "<h1>ask page: all</h1>\n"),
    ("page all getpid", "<title>ask page: all, getpid</title>\n"),
    ("page getpid", "<h2 id=\"refused\">Refused: 1</h2>\n"),
    (
        "page getpid",
        "<tr id=\"call-39\"><th scope=\"row\">39 getpid</th>\n<td><b>errno/1 EPERM</b>\n</td>\n</tr>\n",
    ),
    (
        "page all",
        "<h2 id=\"conditional\">Under conditions: 0</h2>\n<p>None.</p>\n</section>\n",
    ),
    (
        "page --old all getpid",
        "<h1>ask page: all to getpid</h1>\n",
    ),
    (
        "page getpid --old all",
        "<tbody id=\"stricter-39\"><tr><th scope=\"row\">39 getpid</th>\n<td><b>allow</b>\n</td>\n<td><b>errno/1 EPERM</b>\n</td>\n",
    ),
    (
        "page --old=getpid all",
        "<h2 id=\"looser\">Looser: 1</h2>\n",
    ),
    (
        "page all",
        "<summary>ask lint --json</summary>\n<pre>{&quot;word&quot;:&quot;lint&quot;,&quot;holds&quot;:true,&quot;differences&quot;:[]}\n</pre>\n",
    ),
];

fn stands_once(part: &str, text: &str) -> bool {
    match text.split_once(part) {
        Some((_before, behind)) => !behind.contains(part),
        None => false,
    }
}

#[test]
fn pages_have_parts(rt: HostRuntime) -> Result<(), Fail> {
    for &(words, part) in PARTS {
        let ran = run(rt.alloc(), words, 0)?;
        let page = str::from_utf8(&ran.out)?;
        assert_eq!(rt;
            (
                ran.status,
                stands_once(part, page),
                page.starts_with("<!DOCTYPE html>\n<html lang=\"en\">\n"),
                page.ends_with("</main>\n</body>\n</html>\n"),
                ran.complaints.len()
            ),
            (0, true, true, true, 0),
            "at {words}"
        );
    }
    Ok(())
}

// Where a verdict is not known there is no page.
#[test]
fn undecided_is_no_page(rt: HostRuntime) -> Result<(), Fail> {
    let ran = run(rt.alloc(), "page --old argument copied", 0)?;
    assert_eq!(rt; (ran.status, ran.out.len()), (2, 0));
    assert!(rt;
        ran.complaints.starts_with(b"ask: page: the filters could not be followed on all calls: ")
    );
    Ok(())
}
