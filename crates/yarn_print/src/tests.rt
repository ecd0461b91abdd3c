//! Each public call once with ample memory.
use crate::print_file;
use std::alloc::Global;
use std::test::Fail;
use yarn_base::{List, Memory, SourceFile, Text};
use yarn_tree::read_file;

const SOURCE: &str = "#one\n#two\ntitle:Start\nnote :\n---\n\
    Go é {$x}! \\# / \\\\ \\{ \\a {$x+1}#x #line:1 // c\n\
    <<declare $x to -3 as number>>\n<<set $x+=1>>\n\
    ->A {$x}\n  -> B <<if $x>1>> #b\n\t<<stop>>\n\
    <<if not $y>>\n<<jump End>> #z\n<<elseif true>>\n<<else>>#e\n<<jump {\"a\"+\"b\"}>>\n<<endif>>\n\
    <<call f( )>>\n<<go \\{ {$x} \\ >>#g\n===\n";

const PRINTED: &str = "#one\n#two\ntitle: Start\nnote:\n---\n\
    Go é {$x}! \\# \\/ \\\\ \\{ \\a {$x + 1} #x #line:1\n\
    <<declare $x = -3 as number>>\n<<set $x += 1>>\n\
    -> A {$x}\n    -> B <<if $x > 1>> #b\n        <<stop>>\n\
    <<if not $y>>\n    <<jump End>> #z\n<<elseif true>>\n<<else>> #e\n    <<jump {\"a\" + \"b\"}>>\n<<endif>>\n\
    <<call f()>>\n<<go \\{ {$x} \\ >> #g\n===\n";

fn printed(alloc: Global, source: &str) -> Result<Text, Memory> {
    let mut bytes = Vec::new(alloc);
    bytes.extend_from_slice(source.as_bytes())?;
    let source = SourceFile {
        name: Text::from_str(alloc, "a.yarn")?,
        bytes: List::from_vec(bytes),
    };
    match read_file(alloc, &source) {
        Ok(file) => print_file(alloc, &file),
        Err(_) => Err(Memory),
    }
}

#[test]
fn a_file_is_printed(rt: HostRuntime) -> Result<(), Fail> {
    let printed = printed(rt.alloc(), SOURCE)?;
    assert_eq!(rt; printed.as_str(), PRINTED);
    Ok(())
}
