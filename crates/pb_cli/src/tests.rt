use crate::ports::{Ports, PortsFault, read_ports, starts_server};
use pb_words::{OutOfMemory, Text};
use std::alloc::Global;
use std::test::Fail;

fn words_of(alloc: Global, given: &[&str]) -> Result<Vec<Text>, OutOfMemory> {
    let mut words = Vec::new(alloc);
    for text in given {
        let mut word = Text::new(alloc);
        word.append(text.as_bytes())?;
        words.push(word)?;
    }
    Ok(words)
}

#[test]
fn ports_are_read_or_refused(rt: HostRuntime) -> Result<(), Fail> {
    let refused = Err(PortsFault::Usage);
    let table: [(&[&str], Result<Ports, PortsFault>); 10] = [
        (
            &["serve"],
            Ok(Ports {
                control: 8888,
                records: 8889,
            }),
        ),
        (
            &["serve", "--data=1", "--control", "065535"],
            Ok(Ports {
                control: 65_535,
                records: 1,
            }),
        ),
        (&["serve", "--control", "8889"], refused),
        (&["serve", "--control", "0"], refused),
        (&["serve", "--data", "65536"], refused),
        (&["serve", "--data", "+1"], refused),
        (&["serve", "--control=1", "--control=2"], refused),
        (&["serve", "--help"], refused),
        (&["serve", "more"], refused),
        (&["server"], refused),
    ];
    for (given, wanted) in table {
        let words = words_of(rt.alloc(), given)?;
        assert_eq!(rt; read_ports(rt.alloc(), words.as_slice()), wanted);
    }
    let words = words_of(rt.alloc(), &["serve", "more"])?;
    assert!(rt; starts_server(words.as_slice()));
    Ok(())
}
