// How replies are written.
use calls::{Answer, Refusal, Reply};
use std::test::Fail;

#[test]
fn every_reply_is_written(rt: HostRuntime) -> Result<(), Fail> {
    let replies = [
        (Reply::Told(Answer::Over), "over"),
        (Reply::Told(Answer::Go(0)), "go 0"),
        (Reply::Told(Answer::Loose(17)), "loose 17"),
        (Reply::Told(Answer::Data(383)), "data 383"),
        (Reply::Told(Answer::Hold(65535)), "hold 65535"),
        (Reply::Noted, "ok"),
        (Reply::Refused(Refusal::NoSuchCore), "no 8"),
        (Reply::Refused(Refusal::BadTime), "no 9"),
        (Reply::Refused(Refusal::CoreBusy), "no 10"),
        (Reply::Refused(Refusal::NotRunning), "no 11"),
        (Reply::Refused(Refusal::ListTooShort), "no 12"),
    ];
    for (reply, line) in replies {
        assert_eq!(rt; reply.to_string(rt.alloc())?.as_str(), line);
    }
    Ok(())
}
