// What a rule is asked: may this task go before its turn?
#[derive(Clone, Copy, PartialEq, Eq, Debug)]
pub struct Question {
    // The smallest start among the next tasks of the cores that are not over, less the time.
    pub slack: i32,
    // The claims of the tasks that are let loose and have not ended.
    pub reserve: u32,
    // The claim of the task itself.
    pub claim: u32,
    // How many tasks are let loose and have not ended.
    pub loose: u8,
}
