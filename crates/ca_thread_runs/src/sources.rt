// Further sources.

// A division by zero.
pub(crate) const BY_ZERO: &[u8] = b"int main(void){ int x = 1 / 0; return 0; }";

// Two mutexes, of which one is taken twice, before an assertion.
pub(crate) const TAKEN_TWICE: &[u8] = b"pthread_mutex_t a;
pthread_mutex_t b;
int ok;
void *f(void *arg) {
  pthread_mutex_lock(&a);
  pthread_mutex_unlock(&a);
  pthread_mutex_lock(&b);
  pthread_mutex_lock(&a);
  assert(ok);
  return NULL;
}
int main(void) {
  pthread_t t;
  pthread_create(&t, NULL, f, NULL);
  return 0;
}";

// A function that calls itself so often, and a call before the calls return.
pub(crate) const DEEP_CALLS: &[u8] = b"int g;
void last(void) {
  return;
}
int down(int n) {
  if (n == 0) {
    last();
    return 0;
  }
  down(n - 1);
  return n;
}
int main(void) {
  int n = g;
  down(n);
  return 0;
}";

// A loop without an end.
pub(crate) const ENDLESS: &[u8] = b"int main(void){ while (1) { } return 0; }";
