mod batches;
mod pool;
mod queues;
