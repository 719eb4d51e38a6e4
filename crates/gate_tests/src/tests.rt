mod busy_run;
mod drawn_lists;
mod holding_gate;
mod meeting_run;
mod stolen_tasks;
mod windows;
