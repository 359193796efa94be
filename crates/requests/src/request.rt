use steps::RuleName;

// The two numbers before a problem.
#[derive(Clone, Copy, PartialEq, Eq, Debug)]
pub struct Request {
    pub horizon: usize,
    pub rule: RuleName,
}
