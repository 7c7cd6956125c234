// Sources of these tests.

/// An assertion of a constant.
pub(crate) const CONSTANT: &[u8] = b"int main(void) { int x = 3; assert(x == 3); return 0; }";

/// A function that begins with an assertion and then calls itself.
pub(crate) const RECURSION: &[u8] = b"int g;
void f(int n) {
  assert(n);
  f(n);
}
int main(void) {
  int x = g;
  f(x);
  return 0;
}";

/// A function that threads begin with and that is called too.
pub(crate) const STARTED_AND_CALLED: &[u8] = b"int g;
void *w(void *arg) {
  assert(g);
  return NULL;
}
int main(void) {
  pthread_t t;
  pthread_create(&t, NULL, w, NULL);
  w(NULL);
  pthread_join(t, NULL);
  return 0;
}";

/// A function that nothing calls.
pub(crate) const NEVER_CALLED: &[u8] = b"int *p;
void idle(void) {
  *p = 1;
}
int main(void) { return 0; }";

/// A call between a read and the assertion of what was read.
pub(crate) const CALL_BETWEEN: &[u8] = b"int g;
void step(void) { }
int main(void) {
  int x = g;
  step();
  assert(x);
  return 0;
}";

/// A straight run of loads with another item between them, a branch, and a load where its ways meet.
pub(crate) const RUN_AND_BRANCH: &[u8] = b"int *p;
int g;
int main(void) {
  g = 1;
  int a = *p;
  int b = a + 1;
  int c = *p + *p;
  if (c) {
    g = 2;
  } else {
    b = *p;
  }
  free(p);
  return b;
}";
