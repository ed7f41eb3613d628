// Tests: texts that are read, translated and printed.
#![tactic(auto)]

#[cfg(test)]
mod tests {
    use doors::Occurrence;
    use print::{print_doors, print_fault};
    use reading::text::read;
    use std::alloc::{AllocError, Global};
    use std::process::Abort;
    use std::test::Fail;
    use table::Table;
    use tokens::{Name, Names, Token};
    use translation::translate;

    // Prints the doors of a text, or its fault, and answers how many bytes, none where that is refused.
    fn print_text(text: &[u8], page: &mut [u8]) -> Option<usize> {
        let mut token_places = [Token::default(); 1088];
        let mut tokens = Table::new(&mut token_places);
        let mut name_places = [Name::default(); 64];
        let mut names = Table::new(&mut name_places);
        let mut places = [Occurrence::default(); 256];
        let mut occurrences = Table::new(&mut places);
        let printed = match read(text, &mut tokens, &mut names) {
            Ok(read) => {
                let _ = translate(read, text, &tokens, &names, &mut occurrences).ok()?;
                let names = Names {
                    text,
                    records: names.records(),
                };
                print_doors(page, names, occurrences.records())
            }
            Err(fault) => print_fault(page, fault),
        };
        printed.ok()
    }

    fn check_print(rt: &impl Abort, text: &[u8], expected: &[u8]) {
        let mut page = [b'#'; 16384];
        let n = print_text(text, &mut page).expect(rt, "the page is large enough");
        assert!(rt; n < 16384);
        assert_eq!(rt; &page[..n], expected);
        assert_eq!(rt; page[n], b'#');
    }

    #[test]
    fn one_path(rt: HostRuntime) {
        check_print(
            &rt,
            b"path arm; {touch, hand}; split end",
            b"0 arm in 0 out 1\n0 touch in 1/0 out 2/0\n0 hand in 1/0 out 2/0\n0 split in 2 out 0\n",
        );
    }

    #[test]
    fn nested_brackets(rt: HostRuntime) {
        check_print(
            &rt,
            b"path (a; (b, (c; d))); {e}, ((f)) end",
            b"0 a in 0 out 1\n0 b in 1 out 3\n0 c in 1 out 2\n0 d in 2 out 3\n0 e in 3/0 out 0/0\n0 f in 3 out 0\n",
        );
    }

    #[test]
    fn braces_side_by_side(rt: HostRuntime) {
        check_print(
            &rt,
            b"path {a}; {b; c}, {d} end",
            b"0 a in 0/0 out 1/0\n0 b in 1/1 out 2\n0 c in 2 out 0/1\n0 d in 1/2 out 0/2\n",
        );
    }

    #[test]
    fn paths_share_names(rt: HostRuntime) {
        let text = b"path a; b end path {b; a}, c end path c; (a, {b}) end";
        let expected =
            b"0 a in 0 out 1\n0 b in 1 out 0\n1 b in 2/0 out 3\n1 a in 3 out 2/0\n1 c in 2 out 2\n2 c in 4 out 5\n2 a in 5 out 4\n2 b in 5/1 out 4/1\n";
        check_print(&rt, text, expected);
    }

    #[test]
    fn faults(rt: HostRuntime) {
        check_print(&rt, b"path A end", b"bytes 2 at 5\n");
        check_print(&rt, b"path a b end", b"grammar 4 at 7\n");
        check_print(&rt, b"path a;", b"grammar 5 at 7\n");
        check_print(&rt, b"path {a;{b}} end", b"rules 7 at 8\n");
        check_print(&rt, b"path a;a end", b"rules 8 at 7\n");
    }

    // Four paths of 64 names of 16 bytes, each name in braces of its own.
    fn largest(heap: Global) -> Result<Vec<u8>, AllocError> {
        let mut text = Vec::new(heap);
        for _ in 0..4 {
            text.extend_from_slice(b"path")?;
            for name in 0..64u8 {
                text.extend_from_slice(if name == 0 { b" {" } else { b";{" })?;
                text.extend_from_slice(b"abcdefghijklmn")?;
                text.extend_from_slice(&[b'a' + name / 16, b'a' + name % 16, b'}'])?;
            }
            text.extend_from_slice(b" end ")?;
        }
        Ok(text)
    }

    #[test]
    fn largest_table(rt: HostRuntime) -> Result<(), Fail> {
        let text = largest(rt.alloc())?;
        assert_eq!(rt; text.len(), 4900);
        let mut page = [b'#'; 16384];
        assert_eq!(rt; print_text(&text, &mut page), Some(10312));
        assert_eq!(rt;
            &page[0..34],
            b"0 abcdefghijklmnaa in 0/0 out 1/0\n".as_slice()
        );
        assert_eq!(rt;
            &page[10270..10313],
            b"3 abcdefghijklmndp in 255/255 out 192/255\n#".as_slice()
        );
        Ok(())
    }

    // A page under 16,384 bytes is refused and left as it is.
    #[test]
    fn small_page(rt: HostRuntime) {
        let mut page = [b'#'; 16383];
        assert_eq!(rt; print_text(b"path a end", &mut page), None);
        assert_eq!(rt; page[0], b'#');
        assert_eq!(rt; print_text(b"path", &mut page), None);
        assert_eq!(rt; page[0], b'#');
    }
}
