// What lines are read as, at each edge of the rules.
use calls::Call;
use script::{Line, read_line};

fn ask(core: u32, time: u32) -> Line {
    Line::Play(Call::Ask { core, time })
}

fn end(core: u32, task: u32, time: u32) -> Line {
    Line::Play(Call::End { core, task, time })
}

#[test]
fn calls_are_read(rt: HostRuntime) {
    assert_eq!(rt; read_line(b"ask 1 2"), ask(1, 2));
    assert_eq!(rt; read_line(b"end 1 2 3"), end(1, 2, 3));
    assert_eq!(rt; read_line(b"ask   1     2"), ask(1, 2), "several spaces");
    assert_eq!(rt; read_line(b"end  1 2    3"), end(1, 2, 3), "several spaces");
    assert_eq!(rt;
        read_line(b"ask 999999999 0"),
        ask(999999999, 0),
        "nine digits"
    );
    assert_eq!(rt; read_line(b"ask 000000007 007"), ask(7, 7), "leading zeros");
    assert_eq!(rt;
        read_line(b"end 000000000 10 020"),
        end(0, 10, 20),
        "leading zeros"
    );
}

#[test]
fn silent_lines(rt: HostRuntime) {
    for line in ["", "#", "#ask 1 2", "# ask 1 2 ", "##", "#\t\r"] {
        assert_eq!(rt; read_line(line.as_bytes()), Line::Silent, "{}", line);
    }
}

#[test]
fn bad_words(rt: HostRuntime) {
    let lines = [
        "ask",
        "end",
        "ask 1",
        "end 1",
        "end 1 2",
        "ask 1 2 3",
        "end 1 2 3 4",
        "asks 1 2",
        "as 1 2",
        "ASK 1 2",
        "Ask 1 2",
        "ends 1 2 3",
        "go 1 2",
        "a 1 2",
        "1 2",
        "12 1 2",
        "ask1 2",
        "ask 1 x",
        "ask x 1",
        "ask 1 2x",
        "ask 1 2 #",
    ];
    for line in lines {
        assert_eq!(rt; read_line(line.as_bytes()), Line::Bad, "{}", line);
    }
}

#[test]
fn bad_bytes(rt: HostRuntime) {
    let lines = [
        " ",
        "   ",
        " ask 1 2",
        "ask 1 2 ",
        "ask ",
        "ask 1 ",
        " # note",
        "ask\t1 2",
        "ask 1\t2",
        "ask 1 2\t",
        "ask 1 2\r",
        "\r",
        "\t",
        "ask +1 2",
        "ask -1 2",
        "ask 1 +2",
        "ask 1.0 2",
        "ask 1000000000 2",
        "ask 1 0000000002",
        "end 1 1234567890 3",
    ];
    for line in lines {
        assert_eq!(rt; read_line(line.as_bytes()), Line::Bad, "{}", line);
    }
    assert_eq!(rt;
        read_line(&[97, 115, 107, 32, 49, 32, 200]),
        Line::Bad,
        "byte 200"
    );
    assert_eq!(rt; read_line(&[200]), Line::Bad, "byte 200 alone");
}

#[test]
fn longest_lines(rt: HostRuntime) {
    let ask_80 = "ask 1                                                                          2";
    let ask_81 =
        "ask 1                                                                           2";
    assert_eq!(rt; read_line(ask_80.as_bytes()), ask(1, 2), "80 bytes");
    assert_eq!(rt; read_line(ask_81.as_bytes()), Line::Bad, "81 bytes");
    assert_eq!(rt;
        read_line(&[b'#'; 80]),
        Line::Silent,
        "a comment of 80 bytes"
    );
    assert_eq!(rt; read_line(&[b'#'; 81]), Line::Bad, "a comment of 81 bytes");
    assert_eq!(rt; read_line(&[b' '; 81]), Line::Bad, "81 spaces");
}
