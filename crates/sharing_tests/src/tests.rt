mod bins;
mod waiting_tasks;
