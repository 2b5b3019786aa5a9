//! The stack module of the examples: one file of C, of which tests of several crates ask what each layer makes.
#![tactic(auto)]

/// The file as bytes of C.
pub const STACK: &[u8] = b"#include <stdlib.h>

typedef struct node {
  int data;
  struct node *next;
} node;

typedef struct stack {
  node *head;
  int size;
} stack;

stack *make(void) {
  stack *q = malloc(sizeof(stack));
  if (q == NULL) return NULL;
  q->head = NULL;
  q->size = 0;
  return q;
}

int empty(stack *q) {
  return q->size == 0;
}

int push(stack *q, int v) {
  node *n = malloc(sizeof(node));
  if (!n) return 0;
  n->data = v;
  n->next = q->head;
  q->head = n;
  q->size++;
  return 1;
}

int pop(stack *q) {
  node *n = q->head;
  if (n == NULL) return 0;
  int v = n->data;
  q->head = n->next;
  q->size--;
  free(n);
  return v;
}

void clear(stack *q) {
  while (q->head != NULL) {
    node *n = q->head;
    q->head = n->next;
    free(n);
  }
  q->size = 0;
}

int length(node *n) {
  if (n == NULL) return 0;
  int rest = length(n->next);
  return rest + 1;
}

int count(stack *q) {
  return length(q->head);
}

void destroy(stack *q) {
  clear(q);
  free(q);
}
";
