use lu_command::Command;
use std::alloc::{AllocError, Global};
use std::test::Fail;

// The words of a line that stand one space apart.
pub(crate) fn words_of(alloc: Global, line: &str) -> Result<Vec<String>, AllocError> {
    let mut words = Vec::new(alloc);
    for word in line.split(' ') {
        words.push(String::from_str(alloc, word)?)?;
    }
    Ok(words)
}

#[test]
fn words_have_their_meaning(rt: HostRuntime) -> Result<(), Fail> {
    let lines = [
        ("fields d _0", Some("d")),
        ("fields -- --x _0", Some("--x")),
        ("fields - _0", Some("-")),
        ("fields help -- _z", Some("help")),
        ("fields d -- _0", Some("d")),
        ("fields d _0 --", Some("d")),
        ("fields d _zik0zi", Some("d")),
        ("docs d _0", Some("d")),
        ("docs -- --x _0", Some("--x")),
        ("docs d _01", None),
        ("docs d", None),
        ("docs d _0 x", None),
        ("check d", Some("d")),
        ("check -- --x", Some("--x")),
        ("check d _0", None),
        ("check", None),
        ("check --x", None),
        ("show d", Some("d")),
        ("show -- --x", Some("--x")),
        ("show d _0", None),
        ("show --x", None),
        ("build d", Some("d")),
        ("build d --compound", Some("d")),
        ("build -", Some("-")),
        ("build -- --x", Some("--x")),
        ("build --compound -- --x", Some("--x")),
        ("build --compound -- --compound", Some("--compound")),
        ("build d -c", None),
        ("build d e", None),
        ("build d -- --compound", None),
        ("build --", None),
        ("build d --compound -- e", None),
        ("build d --compound --compound", None),
        ("build d --compact", None),
        ("build d _0", None),
        ("build --compound", None),
        ("build", None),
        ("delete d f x", Some("d")),
        ("delete -- --x f x", Some("--x")),
        ("delete d f", None),
        ("delete d f x y", None),
        ("delete d f --x", None),
        ("delete", None),
        ("postings d f x 0", Some("d")),
        ("postings d f x 0000000002147483647", Some("d")),
        ("postings -- --x f x 7", Some("--x")),
        ("postings d f x", None),
        ("postings d f x 0 1", None),
        ("postings d f x 2147483648", None),
        ("postings d f x 00000000000000000000", None),
        ("postings d f x -1", None),
        ("postings d f x +1", None),
        ("postings d f x x", None),
        ("merge d", Some("d")),
        ("merge d --compound", Some("d")),
        ("merge --compound -- --x", Some("--x")),
        ("merge d --compound --compound", None),
        ("merge d _0", None),
        ("merge", None),
        ("doc d _0", None),
        ("fields d _01", None),
        ("fields d", None),
        ("fields d _0 x", None),
        ("fields d _0 --x", None),
        ("fields --help", None),
        ("fields d _zik0zj", None),
        ("fields -- d _0 --", None),
        ("-- fields d _0", None),
        ("show", None),
        ("help", None),
        ("--help", None),
        ("--version", None),
        ("", None),
    ];
    for (line, dir) in lines {
        let words = words_of(rt.alloc(), line)?;
        let found = match Command::of(words.as_slice()) {
            Some(Command::Docs { dir, .. }) => Some(dir),
            Some(Command::Fields { dir, .. }) => Some(dir),
            Some(Command::Check { dir }) => Some(dir),
            Some(Command::Show { dir }) => Some(dir),
            Some(Command::Build { dir, .. }) => Some(dir),
            Some(Command::Delete { dir, .. }) => Some(dir),
            Some(Command::Postings { dir, .. }) => Some(dir),
            Some(Command::Merge { dir, .. }) => Some(dir),
            None => None,
        };
        assert_eq!(rt; found, dir, "{line}");
    }
    assert!(rt; Command::of(&[]).is_none());
    Ok(())
}

#[test]
fn one_file_is_written_where_it_is_asked_for(rt: HostRuntime) -> Result<(), Fail> {
    let lines = [
        ("build d", false),
        ("build --compound d", true),
        ("build d --compound", true),
        ("build d --", false),
        ("build -", false),
        ("build -- --x", false),
        ("build --compound -- --compound", true),
        ("merge d", false),
        ("merge d --compound", true),
    ];
    for (line, compound) in lines {
        let words = words_of(rt.alloc(), line)?;
        let found = match Command::of(words.as_slice()) {
            Some(Command::Build { compound, .. }) => Some(compound),
            Some(Command::Merge { compound, .. }) => Some(compound),
            _ => None,
        };
        assert_eq!(rt; found, Some(compound), "{line}");
    }
    Ok(())
}
