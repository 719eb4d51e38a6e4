mod counting_run;
mod demo;
