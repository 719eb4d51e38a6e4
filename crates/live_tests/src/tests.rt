mod check;
mod live;
mod live_verdicts;
