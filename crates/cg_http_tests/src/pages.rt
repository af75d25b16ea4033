//! The page of a node: texts of peers are escaped, each token has an arc, the table has a row for each endpoint.

use crate::nodes::{ring_of, status, table};
use cg_page::laws::escaped_texts_stay;
use cg_page::{SCRIPT, page};
use cg_testing::{expect, expect_eq};
use std::alloc::Global;
use std::str::from_utf8;
use std::test::Fail;

// The page of the sample node, whose key `LOAD` has this text.
fn shown(alloc: Global, load: &str) -> Result<String, Fail> {
    let body = page(
        alloc,
        &status(alloc)?,
        &table(alloc, load)?,
        &ring_of(alloc)?,
    )?;
    let text = from_utf8(body.as_slice()).ok().ok_or("a text")?;
    Ok(String::from_str(alloc, text)?)
}

#[test]
fn texts_of_peers_are_escaped(rt: HostRuntime) -> Result<(), Fail> {
    escaped_texts_stay();
    let page = shown(rt.alloc(), "</dd><script>alert(\"1\")</script>&'")?;
    expect!(page.contains(
        "<dt>LOAD</dt><dd>&lt;/dd&gt;&lt;script&gt;alert(&quot;1&quot;)&lt;/script&gt;&amp;&#39;</dd>"
    ))?;
    expect!(!page.contains("alert(\"1\")"))
}

#[test]
fn rows_of_the_page(rt: HostRuntime) -> Result<(), Fail> {
    let page = shown(rt.alloc(), "1")?;
    expect!(page.contains(
        "<tr id=\"10.0.0.1:7000\"><th scope=\"row\"><i style=\"background:hsl(97 65% 50%)\"></i>10.0.0.1:7000</th>\
<td>9</td><td>1</td><td>1</td><td></td><td></td><td><details><summary>0</summary><dl>\n</dl></details></td></tr>\n"
    ))?;
    expect!(page.contains(
        "10.0.0.2:7000</th><td>4</td><td>1</td><td>4</td><td>Alive</td><td>12</td><td><details><summary>3</summary>"
    ))
}

#[test]
fn arcs_of_the_page(rt: HostRuntime) -> Result<(), Fail> {
    let page = shown(rt.alloc(), "1")?;
    let arc =
        "stroke-dasharray=\"0 0 65536 65536\"><title>00000000000000000000000000000010 10.0.0.2:7000</title></circle>\n";
    expect!(page.contains(arc))
}

#[test]
fn the_page_is_whole(rt: HostRuntime) -> Result<(), Fail> {
    let page = shown(rt.alloc(), "1")?;
    expect!(page.starts_with("<!doctype html>\n"))?;
    expect!(page.contains("<h1>Node 10.0.0.1:7000 c1</h1>\n"))?;
    expect!(page.ends_with("</script>\n</body>\n</html>\n"))?;
    expect_eq!(
        (page.contains(SCRIPT), page.contains("http")),
        (true, false)
    )
}
