// Frames on the worked example, on both boards and under each rule, and at the edges of their calls.
use crate::bytes::{Draft, example_table, reading, row};
use board::Board;
use board::cores::Step;
use board::count::CountBoard;
use calls::{Answer, Call, Refusal, Reply};
use frame::Frame;
use frame::playing::play;
use rule::Rule;
use rule::basic::{BySlack, Locked};
use rule::cap::Capped;
use runs::{Event, Look, Manner, Record};
use std::alloc::Global;
use std::process::Abort;
use std::test::Fail;
use table::lawful::Table;
use vectors::vector_board::VectorBoard;

// The ask, and the answer to it.
fn ask(core: u32, time: u32, answer: Answer) -> Event {
    Event {
        call: Call::Ask { core, time },
        reply: Reply::Told(answer),
    }
}

// The finish, which is accepted.
fn end(core: u32, task: u32, time: u32) -> Event {
    Event {
        call: Call::End { core, task, time },
        reply: Reply::Noted,
    }
}

// The run of the worked example: by time 9 every core has come further than the table has it come by then.
fn ahead() -> [Event; 15] {
    [
        ask(0, 0, Answer::Go(0)),
        ask(1, 0, Answer::Go(4)),
        ask(2, 0, Answer::Go(8)),
        end(0, 0, 5),
        end(1, 4, 5),
        end(2, 8, 5),
        ask(0, 5, Answer::Go(1)),
        ask(2, 5, Answer::Go(9)),
        end(0, 1, 6),
        ask(0, 6, Answer::Go(2)),
        end(0, 2, 6),
        ask(1, 6, Answer::Go(5)),
        ask(0, 6, Answer::Go(3)),
        end(1, 5, 8),
        end(0, 3, 9),
    ]
}

// The rule by slack, while fewer tasks than this are loose.
fn capped(most: u8) -> Capped<BySlack> {
    Capped::new(most, BySlack)
}

// The frame gives these replies to these calls.
fn replies<B: Board, R: Rule>(rt: &impl Abort, frame: &mut Frame<B, R>, events: &[Event]) {
    for event in events {
        assert_eq!(rt; frame.reply(event.call), event.reply);
    }
}

// Core 1 of the example, ahead, asks at this time and gets this answer.
fn then_asked<B: Board + Drop, R: Rule + Drop>(
    rt: &impl Abort,
    heap: Global,
    board: B,
    rule: R,
    time: u32,
    answer: Answer,
) -> Result<(), Fail> {
    let table = example_table(rt, heap)?;
    let mut frame = Frame::open(&table, board, rule);
    replies(rt, &mut frame, &ahead());
    assert_eq!(rt; frame.ask(1, time), Ok(answer));
    Ok(())
}

// The whole example on a board: what runs loose is in the sums until it has ended.
fn whole_example<B: Board + Drop>(rt: &impl Abort, heap: Global, board: B) -> Result<(), Fail> {
    let table = example_table(rt, heap)?;
    let mut frame = Frame::open(&table, board, BySlack);
    replies(rt, &mut frame, &ahead());
    assert_eq!(rt; frame.sums(9), Ok((Some(31), 0, 0)));
    replies(rt, &mut frame, &[ask(1, 9, Answer::Loose(6))]);
    assert_eq!(rt; frame.sums(9), Ok((Some(31), 10, 1)));
    assert_eq!(rt; frame.sums(41), Ok((Some(-1), 10, 1)));
    replies(rt, &mut frame, &[end(1, 6, 11)]);
    assert_eq!(rt; frame.sums(11), Ok((Some(29), 0, 0)));
    replies(rt, &mut frame, &[end(2, 9, 12), ask(1, 12, Answer::Go(7))]);
    let running = Look {
        ended: 3,
        step: Step::Running,
        next: Some(7),
    };
    assert_eq!(rt; frame.look(1), Ok(running));
    replies(rt, &mut frame, &[end(1, 7, 13), ask(1, 13, Answer::Over)]);
    let over = Look {
        ended: 4,
        step: Step::Over,
        next: None,
    };
    assert_eq!(rt; frame.look(1), Ok(over));
    assert_eq!(rt; frame.sums(13), Ok((None, 0, 0)), "all cores are over");
    assert_eq!(rt; frame.latest(), 13);
    Ok(())
}

#[test]
fn the_example_on_both_boards(rt: HostRuntime) -> Result<(), Fail> {
    whole_example(&rt, rt.alloc(), CountBoard::new())?;
    whole_example(&rt, rt.alloc(), VectorBoard::new())
}

#[test]
fn the_example_under_each_rule(rt: HostRuntime) -> Result<(), Fail> {
    let heap = rt.alloc();
    then_asked(&rt, heap, VectorBoard::new(), BySlack, 9, Answer::Loose(6))?;
    then_asked(&rt, heap, VectorBoard::new(), BySlack, 30, Answer::Loose(6))?;
    then_asked(&rt, heap, VectorBoard::new(), BySlack, 31, Answer::Hold(6))?;
    then_asked(&rt, heap, CountBoard::new(), BySlack, 30, Answer::Loose(6))?;
    then_asked(&rt, heap, CountBoard::new(), BySlack, 31, Answer::Hold(6))?;
    then_asked(&rt, heap, VectorBoard::new(), Locked, 9, Answer::Hold(6))?;
    then_asked(&rt, heap, CountBoard::new(), Locked, 9, Answer::Hold(6))?;
    then_asked(
        &rt,
        heap,
        VectorBoard::new(),
        capped(1),
        9,
        Answer::Loose(6),
    )?;
    then_asked(&rt, heap, CountBoard::new(), capped(1), 31, Answer::Hold(6))?;
    then_asked(&rt, heap, VectorBoard::new(), capped(0), 9, Answer::Hold(6))
}

#[test]
fn a_loose_task_waits_for_its_data(rt: HostRuntime) -> Result<(), Fail> {
    // Task 2 waits for tasks 0 and 1, and reads what task 0 writes.
    let rows = [
        row(0, 20, 40),
        row(2, 20, 40),
        reading(row(1, 50, 60), 0b001),
    ];
    let table = Draft::new(3, 60, &rows).loaded(&rt, rt.alloc())?;
    let mut frame = Frame::open(&table, VectorBoard::new(), BySlack);
    replies(
        &rt,
        &mut frame,
        &[
            ask(0, 0, Answer::Go(0)),
            ask(2, 0, Answer::Go(1)),
            ask(1, 0, Answer::Data(2)),
            ask(1, 1, Answer::Data(2)),
        ],
    );
    assert_eq!(rt; frame.sums(1), Ok((Some(19), 10, 1)));
    let mut list = [Record::FRESH; 3];
    assert_eq!(rt; frame.report(&mut list), Ok(3));
    assert_eq!(rt; list[2], Record::FRESH, "let loose, but not started");
    replies(
        &rt,
        &mut frame,
        &[end(0, 0, 2), ask(1, 2, Answer::Loose(2))],
    );
    Ok(())
}

#[test]
fn a_report_fills_the_front_of_the_list(rt: HostRuntime) -> Result<(), Fail> {
    let table = example_table(&rt, rt.alloc())?;
    let mut frame = Frame::open(&table, VectorBoard::new(), BySlack);
    replies(&rt, &mut frame, &ahead());
    replies(&rt, &mut frame, &[ask(1, 9, Answer::Loose(6))]);
    let mark = Record {
        manner: Manner::Loose,
        start: 77,
        ended: true,
        end: 78,
    };
    let mut short = [mark; 9];
    assert_eq!(rt; frame.report(&mut short), Err(Refusal::ListTooShort));
    assert_eq!(rt; short, [mark; 9]);
    let mut long = [mark; 12];
    assert_eq!(rt; frame.report(&mut long), Ok(10));
    let third = Record {
        manner: Manner::InTurn,
        start: 6,
        ended: true,
        end: 9,
    };
    let loose = Record {
        manner: Manner::Loose,
        start: 9,
        ended: false,
        end: 0,
    };
    assert_eq!(rt; long[3], third);
    assert_eq!(rt; long[6], loose);
    assert_eq!(rt; long[7], Record::FRESH);
    assert_eq!(rt; long[10], mark);
    assert_eq!(rt; long[11], mark);
    assert_eq!(rt; loose.manner.number(), 2);
    assert_eq!(rt; third.manner.number(), 1);
    assert_eq!(rt; Record::FRESH.manner.number(), 0);
    Ok(())
}

#[test]
fn refusals_in_their_order(rt: HostRuntime) -> Result<(), Fail> {
    let table = example_table(&rt, rt.alloc())?;
    let mut frame = Frame::open(&table, VectorBoard::new(), BySlack);
    assert_eq!(rt; frame.ask(3, 268_435_456), Err(Refusal::NoSuchCore));
    assert_eq!(rt; frame.finish(4_294_967_295, 0, 0), Err(Refusal::NoSuchCore));
    assert_eq!(rt; frame.look(3), Err(Refusal::NoSuchCore));
    assert_eq!(rt; frame.ask(0, 268_435_456), Err(Refusal::BadTime));
    assert_eq!(rt; frame.sums(268_435_456), Err(Refusal::BadTime));
    assert_eq!(rt; frame.sums(268_435_455), Ok((Some(-268_435_455), 0, 0)));
    assert_eq!(rt; frame.latest(), 0, "sums and refusals move no time");
    assert_eq!(rt; frame.ask(0, 5), Ok(Answer::Go(0)));
    assert_eq!(rt; frame.ask(0, 4), Err(Refusal::BadTime));
    assert_eq!(rt; frame.ask(0, 5), Err(Refusal::CoreBusy));
    assert_eq!(rt; frame.finish(1, 0, 4), Err(Refusal::BadTime));
    assert_eq!(rt; frame.finish(1, 0, 5), Err(Refusal::NotRunning));
    assert_eq!(rt; frame.finish(0, 1, 5), Err(Refusal::NotRunning));
    assert_eq!(rt; frame.finish(0, 4_294_967_295, 5), Err(Refusal::NotRunning));
    assert_eq!(rt; frame.sums(4), Err(Refusal::BadTime));
    assert_eq!(rt; frame.finish(0, 0, 268_435_455), Ok(()));
    assert_eq!(rt; frame.ask(0, 268_435_455), Ok(Answer::Hold(1)));
    assert_eq!(rt; frame.ask(0, 268_435_454), Err(Refusal::BadTime));
    Ok(())
}

#[test]
fn a_frame_on_an_empty_table(rt: HostRuntime) {
    let mut frame = Frame::open(&Table::new(), VectorBoard::new(), BySlack);
    assert_eq!(rt; frame.ask(0, 0), Err(Refusal::NoSuchCore));
    assert_eq!(rt; frame.finish(0, 0, 0), Err(Refusal::NoSuchCore));
    assert_eq!(rt; frame.look(0), Err(Refusal::NoSuchCore));
    assert_eq!(rt; frame.sums(0), Ok((None, 0, 0)));
    let mut list = [Record::FRESH; 0];
    assert_eq!(rt; frame.report(&mut list), Ok(0));
}

#[test]
fn a_list_of_calls_is_played(rt: HostRuntime) -> Result<(), Fail> {
    let table = example_table(&rt, rt.alloc())?;
    let mut counted = ahead().map(|event| Event::new(event.call));
    let mut noticed = counted;
    let left = play(&table, CountBoard::new(), BySlack, &mut counted);
    assert_eq!(rt; counted, ahead());
    assert_eq!(rt; left.latest(), 9);
    let _ = play(&table, VectorBoard::new(), Locked, &mut noticed);
    assert_eq!(rt; noticed, ahead());
    Ok(())
}
